// Types held against each other, and the slots of a call that begun.
ghost use Rattle.std.specs.Prelude.{◌≡◌, ℕ, ◌+◌, ◌-◌, ◌<◌, take};
ghost use Rattle.semantics.specs.Names.{same_ty};
ghost use Rattle.semantics.specs.Check.{of_slot};
ghost use Rattle.semantics.specs.Walk.{first_slot, pop as others};
ghost use Rattle.checker.specs.Rows.{typ, slots_is, blamed, Within};
ghost use Rattle.checker.specs.Types.{type_is};

use crate::check::Checker;
use crate::lookup::{Lookup, Type};
use crate::packed::TypeWord;
use crate::slots::Slots;
use semantics::fault::Fault;

impl<L: Lookup> Checker<'_, L> {
    // Whether two types are the same.
    fn same(&self, words: &[u32], x: Type, y: Type) -> bool
        requires { Within self.now.b words.now }
        ensures { result ≡ same_ty (type_is (L.Lookup.book self.now.look.now (take self.now.b.base words.now)) x) (type_is (L.Lookup.book self.now.look.now (take self.now.b.base words.now)) y) }
    {
        match (x, y) {
            (Type::Num, Type::Num) => true,
            (Type::Bool, Type::Bool) => true,
            (Type::Of(x), Type::Of(y)) => self.look.same(words, self.b, x, y),
            _ => false,
        }
    }

    // What is wrong with something of one type where another is wanted: nothing where one of them isn't known.
    pub fn clash(&self, words: &[u32], wanted: TypeWord, is: TypeWord) -> Option<Fault>
        requires { Within self.now.b words.now }
        ensures { (m n : ℕ) → of_slot (typ (L.Lookup.book self.now.look.now (take self.now.b.base words.now)) wanted.0) m n (typ (L.Lookup.book self.now.look.now (take self.now.b.base words.now)) «is».0) ≡ blamed result m n }
    {
        let wanted = wanted.unpack()?;
        let is = is.unpack()?;
        let same = self.same(words, wanted, is);
        (!same).then_some(Fault::OtherType)
    }

    // What the next slot of a call wants, and which are left behind it.
    pub fn wanted_by(&self, words: &[u32], slots: Option<Slots>) -> TypeWord
        requires { Within self.now.b words.now }
        ensures { typ (L.Lookup.book self.now.look.now (take self.now.b.base words.now)) result.0 ≡ first_slot (slots_is (L.Lookup.book self.now.look.now (take self.now.b.base words.now)) slots) }
    {
        let Some(s) = slots else {
            return TypeWord::NONE;
        };
        TypeWord::pack(self.look.slot(words, self.b, s.sig, s.next))
    }

    pub fn slots_behind(&self, words: &[u32], slots: Option<Slots>) -> Option<Slots>
        requires { Within self.now.b words.now }
        ensures { slots_is (L.Lookup.book self.now.look.now (take self.now.b.base words.now)) result ≡ others (slots_is (L.Lookup.book self.now.look.now (take self.now.b.base words.now)) slots) }
    {
        let Slots { sig, next, .. } = slots?;
        let next = next + 1;
        if next >= self.look.slots(words, self.b, sig) {
            return None;
        }
        Some(Slots { sig, next })
    }
}
