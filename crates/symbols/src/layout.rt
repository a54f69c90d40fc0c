// The row of words in which texts and their symbol table lie.
ghost use Rattle.std.specs.Prelude.{◌≡◌, drop};

use source::{Extent, Source};

// The parts of the row: up to texts a slot, for the line that is looked at; up to index the words of the texts; up to work the symbol
// table; behind that room to work in.
#[derive(Clone, Copy)]
pub struct Layout {
    pub texts: usize,
    pub index: usize,
    pub work: usize,
}

impl Layout {
    ghost use Rattle.symbols.specs.Rows.{InOrder, Lent, texts_in, FetchSays};

    // The words of the texts.
    pub fn texts_of<'a>(self, words: &'a [u32]) -> &'a [u32]
        requires { InOrder self words.now }
        ensures { result.now ≡ texts_in self words.now }
    {
        &words[self.texts..self.index]
    }

    // The i-th line of a file comes to stand in the slot: where it stands in the texts' part of the row. None, where there is none, or where
    // it doesn't go into the slot. What stands behind the slot stays as it was.
    pub fn fetch<S: Source>(
        self,
        source: &S,
        words: &mut [u32],
        file: usize,
        i: usize,
    ) -> Option<Extent>
        requires { Lent (S.Source.fits source.now) self words.old }
        ensures behind { drop self.texts words.new ≡ drop self.texts words.old }
        ensures line { FetchSays self (S.Source.holds source.now (texts_in self words.old)) file i (texts_in self words.old) words.new result }
    {
        let e = source.line(self.texts_of(words), file, i)?;
        if e.len > self.texts {
            return None;
        }
        let from = self.texts + e.from;
        words.copy_within(from..from + e.len, 0);
        Some(Extent { from, len: e.len })
    }
}
