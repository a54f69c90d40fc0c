// What the lines of a file declare, written into the table.
ghost use Rattle.std.specs.Prelude.{◌≡◌, ◌<◌, ◌≤◌, Some};
ghost use Rattle.std.specs.List.{slice_get};
ghost use Rattle.semantics.specs.Names.{File as Meant};
ghost use Rattle.symbols.specs.Rows.{Lent, texts_in};

use crate::NoRoom;
use crate::entry::{Declaring, Listed, Origin};
use crate::line::FileIn;
use source::Source;

// What was listed of a line, and how long the line is.
#[derive(Clone, Copy)]
struct Put {
    len: usize,
    listed: Listed,
}

impl FileIn {
    ghost use Rattle.collector.specs.Says.{There, BeginsAt, NthSays, LinesSays};

    // What the i-th line of a file declares, written from a place on; start is where the line begins in the file.
    fn put_nth<S: Source>(
        self,
        source: &S,
        words: &mut [u32],
        i: usize,
        start: usize,
        at: usize,
    ) -> Result<Put, NoRoom>
        requires lent { Lent (S.fits source.now) self.l words.old }
        requires there { There (S.holds source.now (texts_in self.l words.old)) self.file i }
        requires begins { BeginsAt (S.holds source.now (texts_in self.l words.old)) self.file i start }
        requires place { (self.l.index ≤ «at») × («at» ≤ self.l.work) × (self.file < 4294967296) }
        ensures { NthSays (S.holds source.now (texts_in self.l words.old)) self.l self.file i start words.old «at» words.new result }
    {
        let Ok(start) = u32::try_from(start) else {
            return Err(NoRoom);
        };
        let line = self.load(source, words, i)?;
        let origin = Origin {
            file: self.file as u32,
            start,
        };
        let declaring = Declaring {
            l: self.l,
            line,
            origin,
        };
        let listed = declaring.put_line(words, at)?;
        Ok(Put {
            len: line.len,
            listed,
        })
    }

    // All that the lines of a file declare, written from a place on.
    pub fn put_lines<S: Source>(
        self,
        source: &S,
        words: &mut [u32],
        at: usize,
    ) -> Result<Listed, NoRoom>
        requires lent { Lent (S.fits source.now) self.l words.old }
        requires there { (x : Meant) × (slice_get (S.holds source.now (texts_in self.l words.old)) self.file ≡ Some x) }
        requires place { (self.l.index ≤ «at») × («at» ≤ self.l.work) × (self.file < 4294967296) }
        ensures { LinesSays (S.holds source.now (texts_in self.l words.old)) self.l self.file words.old «at» words.new result }
    {
        let lines = source.lines(self.l.texts_of(words), self.file);
        let mut start = 0;
        let mut count = 0;
        let mut to = at;
        for i in 0..lines {
            let put = self.put_nth(source, words, i, start, to)?;
            start += put.len + 1;
            count += put.listed.count;
            to = put.listed.to;
        }
        Ok(Listed { count, to })
    }
}
