// A line of the texts, fetched and read.
ghost use Rattle.std.specs.Prelude.{◌≤◌};
ghost use Rattle.symbols.specs.Rows.{InOrder, Lent, texts_in};
ghost use Rattle.syntax.specs.Line.{item_in};
ghost use Rattle.syntax.specs.View.{ViewSays};

use crate::NoRoom;
use source::{Extent, Source};
use symbols::layout::Layout;
use syntax::read::{Refusal, read_line};
use syntax::view::{Item, item_of};

// How many words an operation takes.
pub const OP: usize = 5;

// A line that stands in the slot: where its bytes stand in the texts' part of the row, how many they are, and of how many operations its
// code is.
#[derive(Clone, Copy)]
pub struct Loaded {
    pub place: usize,
    pub len: usize,
    pub count: usize,
}

// A file, by its place in the order, of the texts in a row that is so divided.
#[derive(Clone, Copy)]
pub struct FileIn {
    pub l: Layout,
    pub file: usize,
}

impl FileIn {
    ghost use Rattle.collector.specs.Says.{There, LoadSays};

    // The i-th line of the file, which has one.
    pub fn load<S: Source>(self, source: &S, words: &mut [u32], i: usize) -> Result<Loaded, NoRoom>
        requires lent { Lent (S.fits source.now) self.l words.old }
        requires there { There (S.holds source.now (texts_in self.l words.old)) self.file i }
        ensures { LoadSays (S.holds source.now (texts_in self.l words.old)) self.l self.file i words.old words.new result }
    {
        let line = self.l.fetch(source, words, self.file, i).ok_or(NoRoom)?;
        Loaded::read(words, self.l, line)
    }
}

impl Loaded {
    ghost use Rattle.collector.specs.Says.{ReadSays, Loads, line_of, plain};

    // The line that stands in the slot, read. One that isn't understood has no code.
    fn read(words: &mut [u32], l: Layout, line: Extent) -> Result<Loaded, NoRoom>
        requires order { InOrder l words.old }
        requires slot { line.len ≤ l.texts }
        ensures { ReadSays l words.old line words.new result }
    {
        let count = match read_line(words, line.len, l.work) {
            Ok(count) => count.min((words.len() - l.work) / OP),
            Err(Refusal::Wrong(_)) => 0,
            Err(Refusal::NoRoom) => return Err(NoRoom),
        };
        Ok(Loaded {
            place: line.from,
            len: line.len,
            count,
        })
    }

    // What it says.
    pub fn item(self, words: &[u32], l: Layout) -> Item<'_>
        requires { Loads l words.now self }
        ensures { ViewSays (line_of words.now self) (plain (item_in (line_of words.now self))) result }
    {
        item_of(words, self.len, l.work, self.count)
    }
}
