// The symbol table at a place of a row: of a file by its place in the order, of a declaration by its handle, all as the words say.
ghost use Rattle.std.specs.Prelude.{◌≡◌, ◌+◌, ◌*◌};

use semantics::sort::Sort;
use symbols::read::{HEAD, ROW, SLOT, part_at, text_at, word_at};

// A symbol table: the row, and the place in it where the table stands.
#[derive(Clone, Copy)]
pub struct Table<'a> {
    pub words: &'a [u32],
    pub index: usize,
}

// A declaration: the row, and the place of its words there, which is its handle.
#[derive(Clone, Copy)]
pub(crate) struct Decl<'a> {
    pub words: &'a [u32],
    pub handle: u32,
}

impl<'a> Table<'a> {
    ghost use Rattle.symbols.specs.Table.{word, file_row, file_name, used_in, first_decl, decl_count};

    // The i-th word of a file; a place that is too large for a number lies past the row's end, too.
    fn file_word(self, k: usize, i: usize) -> u32
        ensures { result ≡ word self.entry.words.now (file_row self.entry.index k + i) }
    {
        let files = self.index.saturating_add(1);
        let row = files.saturating_add(k.saturating_mul(ROW));
        word_at(self.words, row.saturating_add(i))
    }

    // A file's name.
    pub(crate) fn file_name(self, k: usize) -> &'a [u32]
        ensures { result.now ≡ file_name self.entry.words.now self.entry.index k }
    {
        let from = self.file_word(k, 0) as usize;
        text_at(self.words, from, self.file_word(k, 1) as usize)
    }

    // The files that a file uses, each by its place in the order.
    pub(crate) fn used_in(self, k: usize) -> &'a [u32]
        ensures { result.now ≡ used_in self.entry.words.now self.entry.index k }
    {
        let from = self.file_word(k, 2) as usize;
        text_at(self.words, from, self.file_word(k, 3) as usize)
    }

    // Where a file's declarations begin, and how many they are.
    pub(crate) fn first_decl(self, k: usize) -> u32
        ensures { result ≡ first_decl self.entry.words.now self.entry.index k }
    {
        self.file_word(k, 4)
    }

    pub(crate) fn decl_count(self, k: usize) -> u32
        ensures { result ≡ decl_count self.entry.words.now self.entry.index k }
    {
        self.file_word(k, 5)
    }

    // What is declared at a handle.
    pub(crate) fn decl(self, handle: u32) -> Decl<'a>
        ensures words { result.words.now ≡ self.entry.words.now }
        ensures handle { result.handle ≡ handle }
    {
        Decl {
            words: self.words,
            handle,
        }
    }
}

impl<'a> Decl<'a> {
    ghost use Rattle.semantics.specs.Numbers.{SortSays};
    ghost use Rattle.symbols.specs.Table.{word, part_at, decl_name, decl_type, tok_at};

    // The i-th of its words.
    fn word(self, i: u8) -> u32
        ensures { result ≡ word self.entry.words.now (self.entry.handle + i) }
    {
        word_at(self.words, self.handle as usize + i as usize)
    }

    // What stands between two places of its line.
    fn part(self, from: u32, to: u32) -> &'a [u32]
        ensures { result.now ≡ part_at self.entry.words.now (word self.entry.words.now (self.entry.handle + 2)) from to }
    {
        part_at(self.words, self.word(2), from, to)
    }

    // Its file, by its place in the order.
    pub(crate) fn file(self) -> usize
        ensures { result ≡ word self.entry.words.now self.entry.handle }
    {
        self.word(0) as usize
    }

    // Its name, and the word that names its type.
    pub(crate) fn name(self) -> &'a [u32]
        ensures { result.now ≡ decl_name self.entry.words.now self.entry.handle }
    {
        self.part(self.word(4), self.word(5))
    }

    pub(crate) fn type_word(self) -> &'a [u32]
        ensures { result.now ≡ decl_type self.entry.words.now self.entry.handle }
    {
        self.part(self.word(6), self.word(7))
    }

    // Its sort, where the number that stands there is one.
    pub(crate) fn sort(self) -> Option<Sort>
        ensures { SortSays (word self.entry.words.now (self.entry.handle + 3)) result }
    {
        Sort::from_number(self.word(3))
    }

    // How many fields or parameters it has.
    pub(crate) fn field_count(self) -> u32
        ensures { result ≡ word self.entry.words.now (self.entry.handle + 8) }
    {
        self.word(8)
    }

    // A piece of a field, whose places stand from the i-th of the field's words on.
    fn field_part(self, index: u32, i: u8) -> &'a [u32]
        ensures { result.now ≡ (tok_at self.entry.words.now (word self.entry.words.now (self.entry.handle + 2)) (self.entry.handle + 9 + 4 * index + i)).w }
    {
        let at = self.handle as usize + HEAD + SLOT * index as usize + i as usize;
        self.part(word_at(self.words, at), word_at(self.words, at + 1))
    }

    // A field's name, and the word that names its type.
    pub(crate) fn field_name(self, index: u32) -> &'a [u32]
        ensures { result.now ≡ (tok_at self.entry.words.now (word self.entry.words.now (self.entry.handle + 2)) (self.entry.handle + 9 + 4 * index)).w }
    {
        self.field_part(index, 0)
    }

    pub(crate) fn field_type(self, index: u32) -> &'a [u32]
        ensures { result.now ≡ (tok_at self.entry.words.now (word self.entry.words.now (self.entry.handle + 2)) (self.entry.handle + 9 + 4 * index + 2)).w }
    {
        self.field_part(index, 2)
    }
}
