// What is declared at a handle, its types by the names that they have in its own file.
ghost use Rattle.std.specs.Prelude.{◌≡◌, ℕ, length, drop};
ghost use Rattle.semantics.specs.Names.{same_ty};
ghost use Rattle.semantics.specs.Walk.{first_slot};
ghost use Rattle.checker.specs.Rows.{ty_of, result_is};
ghost use Rattle.checker.specs.Types.{SomeSmall, FieldSmall};

use crate::search::LIMIT;
use crate::table::Table;
use base::same_word;
use checker::lookup::{Type, TypeId};
use semantics::sort::Sort;

impl<'a> Table<'a> {
    ghost use Rattle.resolver.specs.Resolve.{sort_at, type_is, declared_at, origin, FieldIs};

    // The sort of what is declared. What lies past the limit is no type.
    pub(crate) fn sort_at(self, d: u32) -> Sort
        ensures { result ≡ sort_at self.entry.words.now d }
    {
        if d as usize >= LIMIT {
            return Sort::Def;
        }
        self.decl(d).sort().unwrap_or(Sort::Def)
    }

    // The type of what is declared: of a kind or a record itself.
    pub(crate) fn result_at(self, d: u32) -> Option<Type>
        ensures small { SomeSmall result }
        ensures is { type_is self.entry.words.now self.entry.index result ≡ result_is (declared_at self.entry.words.now self.entry.index d) }
    {
        let decl = self.decl(d);
        match self.sort_at(d) {
            Sort::Kind | Sort::Record => Some(Type::Of(TypeId(d))),
            _ => self.type_named(decl.file(), decl.type_word()),
        }
    }

    // How many fields or parameters it has.
    pub(crate) fn slot_count(self, d: u32) -> u32
        ensures { (x : ℕ) → result ≡ length (declared_at self.entry.words.now x d).slots }
    {
        self.decl(d).field_count()
    }

    // The type of the one with an index.
    pub(crate) fn slot_at(self, d: u32, index: u32) -> Option<Type>
        ensures small { SomeSmall result }
        ensures is { type_is self.entry.words.now self.entry.index result ≡ first_slot (drop index (declared_at self.entry.words.now self.entry.index d).slots) }
    {
        let decl = self.decl(d);
        if index < decl.field_count() {
            self.type_named(decl.file(), decl.field_type(index))
        } else {
            None
        }
    }

    // The type of the first one of a name.
    pub(crate) fn field_at(self, d: u32, name: &[u32]) -> Option<Option<Type>>
        ensures small { FieldSmall result }
        ensures is { FieldIs self.entry.words.now self.entry.index (declared_at self.entry.words.now self.entry.index d).slots name.now result }
    {
        let decl = self.decl(d);
        let i = (0..decl.field_count()).find(|&i| same_word(decl.field_name(i), name))?;
        Some(self.type_named(decl.file(), decl.field_type(i)))
    }

    // Whether two types are the same: their files' names and their names.
    pub(crate) fn same_type(self, a: u32, b: u32) -> bool
        ensures { result ≡ same_ty (ty_of (origin self.entry.words.now self.entry.index a)) (ty_of (origin self.entry.words.now self.entry.index b)) }
    {
        if a == b {
            return true;
        }
        let (a, b) = (self.decl(a), self.decl(b));
        let files_same = same_word(self.file_name(a.file()), self.file_name(b.file()));
        files_same && same_word(a.name(), b.name())
    }
}
