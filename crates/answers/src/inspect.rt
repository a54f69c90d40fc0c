// One line of the texts looked at: fetched, read and checked.
ghost use Rattle.std.specs.Prelude.{◌≡◌, ◌≤◌, take, drop};
ghost use Rattle.symbols.specs.Rows.{Lent, texts_in};

use checker::lookup::Lookup;
use diagnostics::{Findings, diagnose};
use source::Source;
use symbols::layout::Layout;

// A line that was looked at: its length, and what is said of it.
#[derive(Clone, Copy)]
pub struct Inspected {
    pub len: usize,
    pub findings: Findings,
}

// A file that is asked of, by its place in the order: how its row is divided, and where work on a line begins.
#[derive(Clone, Copy)]
pub struct FileAt {
    pub l: Layout,
    pub file: usize,
    pub base: usize,
}

impl FileAt {
    ghost use Rattle.answers.specs.Says.{InspectSays};

    // What is said of the file's i-th line, from base on; what stands between the slot and base stays as it was. None, where there is no
    // such line, where it doesn't go into the slot or into the room behind base, or where the lookup doesn't know all.
    pub fn inspect<S: Source, L: Lookup>(
        self,
        source: &S,
        look: &L,
        words: &mut [u32],
        i: usize,
    ) -> Option<Inspected>
        requires { Lent (S.Source.fits source.now) self.l words.old }
        ensures kept { drop self.l.texts (take self.base words.new) ≡ drop self.l.texts (take self.base words.old) }
        ensures says { InspectSays (L.Lookup.book look.now) (S.Source.holds source.now (texts_in self.l words.old)) self.file i self.l.texts self.base words.old words.new result }
    {
        let line = self.l.fetch(source, words, self.file, i)?;
        let findings = diagnose(look, words, line.len, self.base).ok()?;
        Some(Inspected {
            len: line.len,
            findings,
        })
    }
}
