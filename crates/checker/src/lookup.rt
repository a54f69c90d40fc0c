// What names mean, as far as it's known.
ghost use Rattle.std.specs.Prelude.{◌≡◌, ℕ, List, length, take, drop};
ghost use Rattle.parser.specs.Rows.{span_of};
ghost use Rattle.semantics.specs.Names.{same_ty};
ghost use Rattle.semantics.specs.Walk.{q_here, q_there, q_file, q_before, first_slot};
ghost use Rattle.checker.specs.Rows.{Book, ty_of, result_is, MeaningSays, YesSays, Within};
ghost use Rattle.checker.specs.Types.{typed, SomeSmall, FieldSmall, FieldTyped};

use crate::rows::Bounds;
use parser::code::Span;
use semantics::sort::Sort;

// A kind or a record that is a type, and what is declared under a name, by the lookup's numbers.
#[derive(Clone, Copy, PartialEq, Eq, Debug)]
pub struct TypeId(pub u32);

#[derive(Clone, Copy, PartialEq, Eq, Debug)]
pub struct SigId(pub u32);

// A type: a number, a truth value, or one of the lookup's.
#[derive(Clone, Copy, PartialEq, Eq, Debug)]
pub enum Type {
    Num,
    Bool,
    Of(TypeId),
}

// What a name means: one thing that is declared, nothing, or several things. It's no Option: nothing and several are told apart.
#[derive(Clone, Copy, PartialEq, Eq, Debug)]
pub enum Meaning {
    Found(SigId),
    Unknown,
    Several,
}

// What has to be known and isn't yet: what a name means here, what a type is, whether there is a file of that name, whether a name is declared before.
#[derive(Clone, Copy)]
pub enum Want {
    Here(Span),
    There(TypeId),
    File(Span),
    Before(Span),
}

// Reads the words before the code, among which the line is. Of what it isn't told yet it says nothing, and it gives no type where that
// isn't known. It gives no type of its own whose number is one of the last three of a word: that leaves room for the others where a type
// is packed into one word.
pub trait Lookup {
    ghost book: { Self → List ℕ → Book };

    // What a name means in the line's file.
    fn here(&self, words: &[u32], b: Bounds, name: Span) -> Option<Meaning>
        requires { Within b words.now }
        ensures { MeaningSays (book self.now (take b.base words.now)) (q_here (span_of (take b.len words.now) name).w) result };

    // What a type is.
    fn there(&self, words: &[u32], b: Bounds, ty: TypeId) -> Option<Meaning>
        requires { Within b words.now }
        ensures { MeaningSays (book self.now (take b.base words.now)) (q_there ((book self.now (take b.base words.now)).types ty.0).file ((book self.now (take b.base words.now)).types ty.0).name) result };

    // Whether there is another file of that name.
    fn file(&self, words: &[u32], b: Bounds, name: Span) -> Option<bool>
        requires { Within b words.now }
        ensures { YesSays (book self.now (take b.base words.now)) (q_file (span_of (take b.len words.now) name).w) result };

    // Whether the line's file declares that name before the line.
    fn before(&self, words: &[u32], b: Bounds, name: Span) -> Option<bool>
        requires { Within b words.now }
        ensures { YesSays (book self.now (take b.base words.now)) (q_before (span_of (take b.len words.now) name).w) result };

    fn sort(&self, words: &[u32], b: Bounds, sig: SigId) -> Sort
        requires { Within b words.now }
        ensures { result ≡ ((book self.now (take b.base words.now)).sigs sig.0).sort };

    // The type of what is declared: of a kind or a record itself.
    fn result(&self, words: &[u32], b: Bounds, sig: SigId) -> Option<Type>
        requires { Within b words.now }
        ensures small { SomeSmall result }
        ensures is { typed (book self.now (take b.base words.now)) result ≡ result_is ((book self.now (take b.base words.now)).sigs sig.0) };

    // How many fields or parameters there are.
    fn slots(&self, words: &[u32], b: Bounds, sig: SigId) -> u32
        requires { Within b words.now }
        ensures { result ≡ length ((book self.now (take b.base words.now)).sigs sig.0).slots };

    // The type of the one with that index.
    fn slot(&self, words: &[u32], b: Bounds, sig: SigId, index: u32) -> Option<Type>
        requires { Within b words.now }
        ensures small { SomeSmall result }
        ensures is { typed (book self.now (take b.base words.now)) result ≡ first_slot (drop index ((book self.now (take b.base words.now)).sigs sig.0).slots) };

    // The type of the first one of that name, if there is one.
    fn field(&self, words: &[u32], b: Bounds, sig: SigId, name: Span) -> Option<Option<Type>>
        requires { Within b words.now }
        ensures small { FieldSmall result }
        ensures is { FieldTyped (book self.now (take b.base words.now)) ((book self.now (take b.base words.now)).sigs sig.0).slots (span_of (take b.len words.now) name).w result };

    // Whether two types are the same.
    fn same(&self, words: &[u32], b: Bounds, x: TypeId, y: TypeId) -> bool
        requires { Within b words.now }
        ensures { result ≡ same_ty (ty_of ((book self.now (take b.base words.now)).types x.0)) (ty_of ((book self.now (take b.base words.now)).types y.0)) };
}
