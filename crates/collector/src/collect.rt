// Files one after the other, and the whole table.
ghost use Rattle.std.specs.Prelude.{◌≡◌, ◌+◌, ◌-◌, ◌*◌, ◌<◌, ◌≤◌, length, Some};
ghost use Rattle.std.specs.List.{slice_get};
ghost use Rattle.semantics.specs.Names.{File as Meant};
ghost use Rattle.symbols.specs.Rows.{Lent, texts_in};
ghost use Rattle.collector.specs.Collected.{CollectSays};

use crate::NoRoom;
use crate::line::FileIn;
use crate::row::put;
use source::Source;
use symbols::layout::Layout;
use symbols::read::ROW;

impl FileIn {
    ghost use Rattle.collector.specs.Collected.{FileSays};

    // A file: its list and its declarations, written from a place on, and its own words. Gives the place behind the declarations.
    fn put_file<S: Source>(self, source: &S, words: &mut [u32], at: usize) -> Result<usize, NoRoom>
        requires lent { Lent (S.fits source.now) self.l words.old }
        requires there { (x : Meant) × (slice_get (S.holds source.now (texts_in self.l words.old)) self.file ≡ Some x) }
        requires place { (self.l.index + 1 + 6 * length (S.holds source.now (texts_in self.l words.old)) ≤ «at») × («at» ≤ self.l.work) }
        ensures { FileSays (S.holds source.now (texts_in self.l words.old)) self.l self.file words.old «at» words.new result }
    {
        let name = source
            .name(self.l.texts_of(words), self.file)
            .ok_or(NoRoom)?;
        let uses = self.put_uses(source, words, at)?;
        let declared = self.put_lines(source, words, uses)?;
        let row = [
            (self.l.texts + name.from) as u32,
            name.len as u32,
            at as u32,
            (uses - at) as u32,
            uses as u32,
            declared.count as u32,
        ];
        put(words, self.l.index + 1 + ROW * self.file, &row);
        Ok(declared.to)
    }
}

// The symbol table of the texts that the source holds, from index on.
pub fn collect<S: Source>(source: &S, words: &mut [u32], l: Layout) -> Result<(), NoRoom>
    requires lent { Lent (S.fits source.now) l words.old }
    ensures texts { texts_in l words.new ≡ texts_in l words.old }
    ensures says { CollectSays (S.holds source.now (texts_in l words.old)) l words.old words.new result }
{
    let files = source.files(l.texts_of(words));
    let room = l.work - l.index;
    if room == 0 || (room - 1) / ROW < files {
        return Err(NoRoom);
    }
    put(words, l.index, &[files as u32]);
    let mut at = l.index + 1 + ROW * files;
    for k in 0..files {
        at = FileIn { l, file: k }.put_file(source, words, at)?;
    }
    Ok(())
}
