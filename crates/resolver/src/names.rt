// What names mean in a file.
ghost use Rattle.std.specs.Prelude.{◌≡◌};
ghost use Rattle.checker.specs.Types.{SomeSmall};
ghost use Rattle.resolver.specs.Resolve.{also, found_or};
ghost use Rattle.checker.specs.declared.lookup.Meaning.TheVariants.{Unknown};

use crate::table::Table;
use base::spells;
use checker::lookup::{Meaning, SigId, Type, TypeId};
use semantics::sort::Sort;

// What was found among used files so far, and in one more of them.
fn also(found: Option<u32>, before: Meaning) -> Meaning
    ensures { result ≡ also found before }
{
    match (found, before) {
        (None, before) => before,
        (Some(d), Meaning::Unknown) => Meaning::Found(SigId(d)),
        (Some(_), _) => Meaning::Several,
    }
}

// What is found, else what is given.
pub fn found_or(found: Option<u32>, other: Meaning) -> Meaning
    ensures { result ≡ found_or found other }
{
    found.map_or(other, |d| Meaning::Found(SigId(d)))
}

impl<'a> Table<'a> {
    ghost use Rattle.symbols.specs.Table.{used_in};
    ghost use Rattle.resolver.specs.Resolve.{among_used, meaning, found_type, type_named};

    // What the files declare under a name that a file uses.
    fn among_used(self, k: usize, name: &[u32]) -> Meaning
        ensures { result ≡ among_used self.entry.words.now self.entry.index name.now (used_in self.entry.words.now self.entry.index k) Unknown }
    {
        let mut m = Meaning::Unknown;
        for g in self.used_in(k) {
            m = also(self.own(*g as usize, name), m);
        }
        m
    }

    // What a name means in a file: what that declares, else what the files declare that it uses.
    pub fn meaning(self, k: usize, name: &[u32]) -> Meaning
        ensures { result ≡ meaning self.entry.words.now self.entry.index k name.now }
    {
        match self.own(k, name) {
            Some(d) => Meaning::Found(SigId(d)),
            None => self.among_used(k, name),
        }
    }

    // The type that is declared there: a kind and a record are types.
    fn found_type(self, m: Meaning) -> Option<Type>
        ensures { result ≡ found_type self.entry.words.now m }
    {
        let Meaning::Found(s) = m else {
            return None;
        };
        match self.decl(s.0).sort()? {
            Sort::Kind | Sort::Record => Some(Type::Of(TypeId(s.0))),
            Sort::Constant | Sort::Def => None,
        }
    }

    // The type that a word names in a file.
    pub fn type_named(self, k: usize, name: &[u32]) -> Option<Type>
        ensures small { SomeSmall result }
        ensures is { result ≡ type_named self.entry.words.now self.entry.index k name.now }
    {
        match name {
            w if spells(w, b"num") => Some(Type::Num),
            w if spells(w, b"bool") => Some(Type::Bool),
            w => self.found_type(self.meaning(k, w)),
        }
    }
}
