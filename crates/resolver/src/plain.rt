// A lookup that works all answers out from a symbol table.
ghost use Rattle.std.specs.Prelude.{◌≡◌, take};
ghost use Rattle.checker.specs.Rows.{Within};
ghost use Rattle.resolver.specs.Resolve.{plain_book, looked_in};

use crate::names::found_or;
use crate::table::Table;
use checker::lookup::{Lookup, Meaning, SigId, Type, TypeId};
use checker::rows::Bounds;
use parser::code::Span;
use semantics::sort::Sort;
use symbols::read::text_at;

// The part of the row that is looked in, from one place up to another, and where the table stands in that; the file whose line is checked;
// how many of that file's declarations stand before the line.
#[derive(Clone, Copy)]
pub struct Plain {
    pub from: usize,
    pub to: usize,
    pub index: usize,
    pub file: usize,
    pub before: usize,
}

impl Plain {
    // The table in the words that are looked in.
    fn table<'a>(&self, words: &'a [u32], b: Bounds) -> Table<'a>
        requires { Within b words.now }
        ensures words { result.words.now ≡ looked_in self.now.from self.now.to (take b.base words.now) }
        ensures index { result.index ≡ self.now.index }
    {
        let len = self.to.saturating_sub(self.from);
        Table {
            words: text_at(&words[..b.base], self.from, len),
            index: self.index,
        }
    }
}

impl Lookup for Plain {
    ghost book = { λ s ws. plain_book (looked_in s.from s.to ws) s.index s.file s.before };

    fn here(&self, words: &[u32], b: Bounds, name: Span) -> Option<Meaning> {
        let name = b.word_of(words, name);
        Some(self.table(words, b).meaning(self.file, name))
    }

    fn there(&self, words: &[u32], b: Bounds, ty: TypeId) -> Option<Meaning> {
        let table = self.table(words, b);
        let decl = table.decl(ty.0);
        let file = table.file_name(decl.file());
        let found = table.declared_in(file, decl.name());
        Some(found_or(found, Meaning::Unknown))
    }

    fn file(&self, words: &[u32], b: Bounds, name: Span) -> Option<bool> {
        let name = b.word_of(words, name);
        Some(self.table(words, b).other_file(self.file, name))
    }

    fn before(&self, words: &[u32], b: Bounds, name: Span) -> Option<bool> {
        let name = b.word_of(words, name);
        let table = self.table(words, b);
        let found = table.own_before(self.file, self.before, name);
        Some(found.is_some())
    }

    fn sort(&self, words: &[u32], b: Bounds, sig: SigId) -> Sort {
        self.table(words, b).sort_at(sig.0)
    }

    fn result(&self, words: &[u32], b: Bounds, sig: SigId) -> Option<Type> {
        self.table(words, b).result_at(sig.0)
    }

    fn slots(&self, words: &[u32], b: Bounds, sig: SigId) -> u32 {
        self.table(words, b).slot_count(sig.0)
    }

    fn slot(&self, words: &[u32], b: Bounds, sig: SigId, index: u32) -> Option<Type> {
        self.table(words, b).slot_at(sig.0, index)
    }

    fn field(&self, words: &[u32], b: Bounds, sig: SigId, name: Span) -> Option<Option<Type>> {
        let name = b.word_of(words, name);
        self.table(words, b).field_at(sig.0, name)
    }

    fn same(&self, words: &[u32], b: Bounds, x: TypeId, y: TypeId) -> bool {
        self.table(words, b).same_type(x.0, y.0)
    }
}
