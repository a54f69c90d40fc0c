// The files that a file uses, listed in the table: each once, those that are there, in the order in which lines use them.
ghost use Rattle.std.specs.Prelude.{◌≡◌, ◌<◌, ◌≤◌, length, Some};
ghost use Rattle.std.specs.List.{slice_get};
ghost use Rattle.semantics.specs.Names.{File as Meant};
ghost use Rattle.symbols.specs.Rows.{Lent, texts_in};
ghost use Rattle.collector.specs.Says.{word_in};

use crate::NoRoom;
use crate::entry::span;
use crate::line::{FileIn, Loaded};
use crate::row::put;
use base::same_word;
use declarations::declare::used;
use parser::code::Span;
use source::Source;
use symbols::layout::Layout;
use symbols::read::text_at;

impl Loaded {
    ghost use Rattle.collector.specs.Says.{Loads, UseSays};

    // The place of the name of the file that the line uses.
    fn used_at(self, words: &[u32], l: Layout) -> Option<Span>
        requires { Loads l words.now self }
        ensures { UseSays words.now self result }
    {
        let name = used(self.item(words, l))?;
        Some(span(name))
    }
}

// The word at places of the row's front.
fn word_at(words: &[u32], s: Span) -> &[u32]
    ensures { result.now ≡ word_in words.now s }
{
    let len = s.to.saturating_sub(s.from);
    text_at(words, s.from as usize, len as usize)
}

impl FileIn {
    ghost use Rattle.collector.specs.Says.{There, NamedSays, ListedSays, PutUseSays, NthUseSays, UsesSays};

    // Whether the file has the name that stands at places of the front.
    fn named<S: Source>(self, source: &S, words: &[u32], s: Span) -> bool
        requires { Lent (S.fits source.now) self.l words.now }
        ensures { NamedSays (S.holds source.now (texts_in self.l words.now)) self.file (word_in words.now s) result }
    {
        let texts = self.l.texts_of(words);
        let name = word_at(words, s);
        let own = source.name(texts, self.file);
        own.is_some_and(|e| same_word(text_at(texts, e.from, e.len), name))
    }

    // Whether the list between two places has the file of the name that stands at places of the front.
    fn is_listed<S: Source>(
        self,
        source: &S,
        words: &[u32],
        s: Span,
        from: usize,
        to: usize,
    ) -> bool
        requires lent { Lent (S.fits source.now) self.l words.now }
        requires list { (from ≤ to) × (to ≤ length words.now) }
        ensures { ListedSays (S.holds source.now (texts_in self.l words.now)) words.now from to (word_in words.now s) result }
    {
        words[from..to].iter().any(|k| {
            let other = FileIn {
                l: self.l,
                file: *k as usize,
            };
            other.named(source, words, s)
        })
    }

    // The use of a name that stands at places of the front, noted in the file's list between two places. Gives the list's end.
    fn put_use<S: Source>(
        self,
        source: &S,
        words: &mut [u32],
        s: Span,
        from: usize,
        to: usize,
    ) -> Result<usize, NoRoom>
        requires lent { Lent (S.fits source.now) self.l words.old }
        requires few { length (S.holds source.now (texts_in self.l words.old)) < 4294967296 }
        requires there { (x : Meant) × (slice_get (S.holds source.now (texts_in self.l words.old)) self.file ≡ Some x) }
        requires list { (from ≤ to) × (to ≤ self.l.work) }
        ensures { PutUseSays (S.holds source.now (texts_in self.l words.old)) self.l self.file (word_in words.old s) words.old from to words.new result }
    {
        if self.named(source, words, s) {
            return Ok(to);
        }
        let Some(found) = source.find(self.l.texts_of(words), word_at(words, s)) else {
            return Ok(to);
        };
        if self.is_listed(source, words, s, from, to) {
            return Ok(to);
        }
        if to >= self.l.work {
            return Err(NoRoom);
        }
        put(words, to, &[found as u32]);
        Ok(to + 1)
    }

    // What the i-th line of a file uses, noted in the file's list between two places. Gives the list's end.
    fn use_nth<S: Source>(
        self,
        source: &S,
        words: &mut [u32],
        i: usize,
        from: usize,
        to: usize,
    ) -> Result<usize, NoRoom>
        requires lent { Lent (S.fits source.now) self.l words.old }
        requires few { length (S.holds source.now (texts_in self.l words.old)) < 4294967296 }
        requires there { There (S.holds source.now (texts_in self.l words.old)) self.file i }
        requires list { (self.l.index ≤ from) × (from ≤ to) × (to ≤ self.l.work) }
        ensures { NthUseSays (S.holds source.now (texts_in self.l words.old)) self.l self.file i words.old from to words.new result }
    {
        let line = self.load(source, words, i)?;
        let Some(s) = line.used_at(words, self.l) else {
            return Ok(to);
        };
        self.put_use(source, words, s, from, to)
    }

    // The files that a file uses, listed from a place on. Gives the list's end.
    pub fn put_uses<S: Source>(
        self,
        source: &S,
        words: &mut [u32],
        at: usize,
    ) -> Result<usize, NoRoom>
        requires lent { Lent (S.fits source.now) self.l words.old }
        requires few { length (S.holds source.now (texts_in self.l words.old)) < 4294967296 }
        requires there { (x : Meant) × (slice_get (S.holds source.now (texts_in self.l words.old)) self.file ≡ Some x) }
        requires place { (self.l.index ≤ «at») × («at» ≤ self.l.work) }
        ensures { UsesSays (S.holds source.now (texts_in self.l words.old)) self.l self.file words.old «at» words.new result }
    {
        let lines = source.lines(self.l.texts_of(words), self.file);
        let mut to = at;
        for i in 0..lines {
            to = self.use_nth(source, words, i, at, to)?;
        }
        Ok(to)
    }
}
