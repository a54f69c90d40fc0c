// Where the machine stands between two turns, and where things stand in the row.
ghost use Rattle.std.specs.Prelude.{◌≡◌, ◌+◌, ◌-◌, ◌≤◌, length};
ghost use Rattle.driver.specs.Says.{memo_in};

use engine::key::Key;
use memo::index::Memo;

// A rule that is to be told: its key, how many answers it got, and where their row begins.
#[derive(Clone, Copy)]
pub struct Told {
    pub key: Key,
    pub count: usize,
    pub from: usize,
}

// What is next: a key is to be brought; an answer of so many words is there; a rule is to be told.
#[derive(Clone, Copy)]
pub enum Now {
    Call(Key),
    Back(usize),
    Tell(Told),
}

// The words of rows and of frames, and what is next.
#[derive(Clone, Copy)]
pub struct At {
    pub rows: usize,
    pub frames: usize,
    pub now: Now,
}

// The row: inputs up to known, the memo up to memo, and behind it the work area, with so many words of rows at its front and of frames at
// its end.
#[derive(Clone, Copy)]
pub struct Desk {
    pub known: usize,
    pub memo: usize,
    pub rows: usize,
    pub frames: usize,
}

impl Desk {
    // The memo, to read from.
    pub fn kept(self, mem: &[u32]) -> Memo<'_>
        requires { (self.known ≤ self.memo) × (self.memo ≤ length mem.now) }
        ensures { result.words.now ≡ memo_in self.known self.memo mem.now }
    {
        Memo {
            words: &mem[self.known..self.memo],
        }
    }

    // How many words are free between the rows and the frames.
    pub fn room(self, mem: &[u32]) -> usize
        requires { self.memo + (self.rows + self.frames) ≤ length mem.now }
        ensures { result ≡ length mem.now - (self.memo + (self.rows + self.frames)) }
    {
        mem.len() - (self.memo + (self.rows + self.frames))
    }

    // The rows and the frames stay, and this is next.
    pub fn at(self, now: Now) -> At
        ensures { result ≡ record { rows = self.rows; frames = self.frames; now = now } }
    {
        At {
            rows: self.rows,
            frames: self.frames,
            now,
        }
    }

    // The rule of a key begins: it is told, with no answers yet.
    pub fn start(self, key: &Key) -> At
        ensures { result ≡ record { rows = self.rows; frames = self.frames; now = Now.Tell (record { key = key.now; count = 0; from = self.rows }) } }
    {
        self.at(Now::Tell(Told {
            key: *key,
            count: 0,
            from: self.rows,
        }))
    }
}
