// An entry read where it stands: its answer, and what it asked, one after the other.
ghost use Rattle.std.specs.Prelude.{◌≡◌, ◌+◌, ◌<◌, length};
ghost use Rattle.memo.specs.Log.{Fits, Record as Stands, entry_at};
ghost use Rattle.memo.specs.Says.{Looks, GotSays};

use crate::record::{ANSWER, ASKED, HEAD, Record};
use engine::key::{KEY_WORDS, Key};

// Where a reader of what an entry asked stands: at which question, and where its answer stands in the row.
#[derive(Clone, Copy)]
pub struct Cursor {
    pub index: usize,
    pub place: usize,
}

// One thing that was asked, with the answer that it got, and where the reader stands then.
#[derive(Clone, Copy)]
pub struct Reply<'a> {
    pub key: Key,
    pub ans: &'a [u32],
    pub next: Cursor,
}

impl<'a> Record<'a> {
    // The answer of the entry.
    pub fn answer(self) -> &'a [u32]
        requires { (Fits self.words.now) × (Stands self.words.now self.depth) }
        ensures { result.now ≡ (entry_at self.entry.words.now self.entry.depth).ans }
    {
        self.part(HEAD, self.word(ANSWER) as usize)
    }

    // How many things it asked.
    pub fn asked(self) -> usize
        requires { (Fits self.words.now) × (Stands self.words.now self.depth) }
        ensures { result ≡ length (entry_at self.entry.words.now self.entry.depth).gots }
    {
        self.word(ASKED) as usize
    }

    // Where a reader of what it asked begins.
    pub fn first(self) -> Cursor
        requires { (Fits self.words.now) × (Stands self.words.now self.depth) }
        ensures looks { Looks self.entry.words.now self.entry.depth result.index result.place }
        ensures is { result.index ≡ 0 }
    {
        Cursor { index: 0, place: 0 }
    }

    // What it asked there.
    pub fn got(self, here: Cursor) -> Reply<'a>
        requires { (Fits self.words.now) × ((Looks self.words.now self.depth here.index here.place) × (here.index < length (entry_at self.words.now self.depth).gots)) }
        ensures says { GotSays self.entry.words.now self.entry.depth here.index result.key result.ans.now result.next.place }
        ensures next { result.next.index ≡ here.index + 1 }
    {
        let a = self.word(ANSWER) as usize;
        let c = self.word(ASKED) as usize;
        let k = HEAD + a + KEY_WORDS * here.index;
        let p = HEAD + (a + KEY_WORDS * c) + here.place;
        let n = self.word(p) as usize;
        Reply {
            key: self.key_at(k),
            ans: self.part(p + 1, n),
            next: Cursor {
                index: here.index + 1,
                place: here.place + (1 + n),
            },
        }
    }
}
