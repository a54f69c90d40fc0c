// Types and the slots of calls in words: here alone they are packed and unpacked.
ghost use Rattle.std.specs.Prelude.{◌≡◌, ℕ, List};
ghost use Rattle.base.specs.Base.{or_else};
ghost use Rattle.checker.specs.Rows.{Book, typ, slots_left, slots_is, slots_row};
ghost use Rattle.checker.specs.Types.{typed, SomeSmall};

use crate::lookup::{SigId, Type, TypeId};
use crate::slots::Slots;

// The words of types: none, num, bool; from there on the lookup's types in their order.
const NONE: u32 = 0;

const NUM: u32 = 1;

const BOOL: u32 = 2;

const FIRST: u32 = 3;

// The word of a type, or of none.
#[derive(Clone, Copy, PartialEq, Eq, Debug)]
pub struct TypeWord(pub u32);

impl TypeWord {
    pub const NONE: TypeWord = TypeWord(NONE);

    pub const NUM: TypeWord = TypeWord(NUM);

    pub const BOOL: TypeWord = TypeWord(BOOL);

    pub fn pack(ty: Option<Type>) -> TypeWord
        requires { SomeSmall ty }
        ensures { (k : Book) → typ k result.0 ≡ typed k ty }
    {
        TypeWord(match ty {
            None => NONE,
            Some(Type::Num) => NUM,
            Some(Type::Bool) => BOOL,
            Some(Type::Of(id)) => FIRST + id.0,
        })
    }

    pub fn unpack(self) -> Option<Type>
        ensures is { (k : Book) → typed k result ≡ typ k self.0 }
        ensures small { SomeSmall result }
    {
        match self.0 {
            NONE => None,
            NUM => Some(Type::Num),
            BOOL => Some(Type::Bool),
            word => Some(Type::Of(TypeId(word - FIRST))),
        }
    }

    // The first of two types that is known.
    pub(crate) fn or(self, other: TypeWord) -> TypeWord
        ensures { (k : Book) → typ k result.0 ≡ or_else (typ k self.0) (typ k other.0) }
    {
        if self == TypeWord::NONE { other } else { self }
    }
}

impl Slots {
    // Slots that are left: whose they are, and one more than the next one's index, which is 0 for none.
    pub(crate) fn words(slots: Option<Slots>) -> [u32; 2]
        ensures { result ≡ slots_row slots }
    {
        match slots {
            None => [0, 0],
            Some(s) => [s.sig.0, s.next + 1],
        }
    }

    pub(crate) fn read(sig: u32, next: u32) -> Option<Slots>
        ensures { (k : Book) → slots_is k result ≡ slots_left k sig next }
    {
        if next == 0 {
            return None;
        }
        Some(Slots {
            sig: SigId(sig),
            next: next - 1,
        })
    }
}
