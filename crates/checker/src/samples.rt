// Two lookups to try the checker with: one that knows of every name that it means nothing, and one that knows nothing yet.
ghost use Rattle.std.specs.Prelude.{◌≡◌, length};
ghost use Rattle.checker.specs.Samples.{empty_book, blank_book};

use crate::lookup::{Lookup, Meaning, SigId, Type, TypeId};
use crate::rows::Bounds;
use parser::code::Span;
use semantics::sort::Sort;

pub struct Empty;

impl Lookup for Empty {
    ghost book = { λ _ _. empty_book };

    fn here(&self, words: &[u32], b: Bounds, name: Span) -> Option<Meaning> {
        Some(Meaning::Unknown)
    }

    fn there(&self, words: &[u32], b: Bounds, ty: TypeId) -> Option<Meaning> {
        Some(Meaning::Unknown)
    }

    fn file(&self, words: &[u32], b: Bounds, name: Span) -> Option<bool> {
        Some(false)
    }

    fn before(&self, words: &[u32], b: Bounds, name: Span) -> Option<bool> {
        Some(false)
    }

    fn sort(&self, words: &[u32], b: Bounds, sig: SigId) -> Sort {
        Sort::Kind
    }

    fn result(&self, words: &[u32], b: Bounds, sig: SigId) -> Option<Type> {
        Some(Type::Of(TypeId(0)))
    }

    fn slots(&self, words: &[u32], b: Bounds, sig: SigId) -> u32 {
        0
    }

    fn slot(&self, words: &[u32], b: Bounds, sig: SigId, index: u32) -> Option<Type> {
        None
    }

    fn field(&self, words: &[u32], b: Bounds, sig: SigId, name: Span) -> Option<Option<Type>> {
        None
    }

    fn same(&self, words: &[u32], b: Bounds, x: TypeId, y: TypeId) -> bool {
        true
    }
}

pub struct Blank;

impl Lookup for Blank {
    ghost book = { λ _ _. blank_book };

    fn here(&self, words: &[u32], b: Bounds, name: Span) -> Option<Meaning> {
        None
    }

    fn there(&self, words: &[u32], b: Bounds, ty: TypeId) -> Option<Meaning> {
        None
    }

    fn file(&self, words: &[u32], b: Bounds, name: Span) -> Option<bool> {
        None
    }

    fn before(&self, words: &[u32], b: Bounds, name: Span) -> Option<bool> {
        None
    }

    fn sort(&self, words: &[u32], b: Bounds, sig: SigId) -> Sort {
        Sort::Kind
    }

    fn result(&self, words: &[u32], b: Bounds, sig: SigId) -> Option<Type> {
        Some(Type::Of(TypeId(0)))
    }

    fn slots(&self, words: &[u32], b: Bounds, sig: SigId) -> u32 {
        0
    }

    fn slot(&self, words: &[u32], b: Bounds, sig: SigId, index: u32) -> Option<Type> {
        None
    }

    fn field(&self, words: &[u32], b: Bounds, sig: SigId, name: Span) -> Option<Option<Type>> {
        None
    }

    fn same(&self, words: &[u32], b: Bounds, x: TypeId, y: TypeId) -> bool {
        true
    }
}

#[cfg(test)]
mod tests {
    use super::{Blank, Empty};
    use crate::check::{Stop, check};
    use crate::lookup::Want;
    use crate::rows::Bounds;
    use parser::code::{Op, Span, emit};
    use std::test::Fail;

    // The line a(b) and its code.
    fn write(words: &mut [u32])
        requires { length words.old ≡ 104 }
    {
        words[0] = 97;
        words[1] = 40;
        words[2] = 98;
        words[3] = 41;
        emit(words, 4, 0, Op::Call(Span { from: 0, to: 1 }, 1));
        emit(words, 4, 1, Op::Name(Span { from: 2, to: 3 }));
        emit(words, 4, 2, Op::Arg);
        emit(words, 4, 3, Op::End(4));
    }

    // Two names that mean nothing, the call's first.
    #[test]
    fn unknown_names_are_blamed(rt: HostRuntime) {
        let mut words = [0; 104];
        write(&mut words);
        match check(
            &Empty,
            &mut words,
            Bounds {
                len: 4,
                base: 4,
                count: 4,
            },
        ) {
            Ok(n) => assert_eq!(rt; n, 2),
            Err(_) => assert_eq!(rt; 0, 1),
        }
        assert_eq!(rt; words[24], 0);
        assert_eq!(rt; words[25], 0);
        assert_eq!(rt; words[26], 1);
        assert_eq!(rt; words[27], 2);
        assert_eq!(rt; words[28], 0);
        assert_eq!(rt; words[29], 2);
        assert_eq!(rt; words[30], 3);
        assert_eq!(rt; words[31], 2);
    }

    #[test]
    fn the_first_name_has_to_be_known(rt: HostRuntime) -> Result<(), Fail> {
        let mut words = [0; 104];
        write(&mut words);
        match check(
            &Blank,
            &mut words,
            Bounds {
                len: 4,
                base: 4,
                count: 4,
            },
        ) {
            Err(Stop::Needs(Want::Here(s))) => {
                assert_eq!(rt; s.to, 1);
                Ok(())
            },
            _ => {
                assert_eq!(rt; 0, 1);
                Ok(())
            },
        }
    }
}
