// Names alone, calls and fields: what they mean is looked up.
ghost use Rattle.std.specs.Prelude.{◌≡◌, ◌+◌, ◌-◌, ◌*◌, ◌<◌, ◌≤◌, take};
ghost use Rattle.lexer.specs.Tokens.{Tok};
ghost use Rattle.grammar.specs.Code.{o_name, o_call, o_field};
ghost use Rattle.parser.specs.Rows.{span_of};
ghost use Rattle.semantics.specs.Check.{count_fault};
ghost use Rattle.checker.specs.Rows.{typ, verdict_said, blamed, meaning_is, Fits, Within, Writes};
ghost use Rattle.checker.specs.Turns.{Ready, TurnSays};
ghost use Rattle.checker.specs.Asks.{told_value, begun, slots_opt, HereSays, SlotsSay, member_said, FieldTurn};

use crate::check::Checker;
use crate::lookup::{Lookup, Meaning, Type, Want};
use crate::packed::TypeWord;
use crate::rows::{Bounds, Frame, Place};
use crate::said::Link;
use crate::slots::Slots;
use crate::verdict::{Role, Verdict};
use parser::code::Span;
use semantics::fault::Fault;
use semantics::sort::Sort;

impl Bounds {
    // What was found of the name s, and a value.
    fn tell_value(self, words: &mut [u32], p: Place, s: Span, v: Verdict, span: Span) -> Place
        requires fits { Fits self p words.old }
        requires less { (p.events + 2 < 3 * self.count) × (p.height < self.count) }
        ensures few { (result.height ≡ p.height + 1) × ((result.names ≡ p.names) × (result.events ≤ p.events + 3)) }
        ensures writes { Writes self p words.old result words.new (λ k line. told_value k (span_of line s) v span.from span.to) }
    {
        let q = self.tell(words, p, s, v);
        self.value(words, q, span, v.ty)
    }

    // What was found of the name s, and a call begun.
    fn begin(
        self,
        words: &mut [u32],
        p: Place,
        s: Span,
        v: Verdict,
        slots: Option<Slots>,
        fault: Option<Fault>,
    ) -> Place
        requires fits { Fits self p words.old }
        requires less { (p.events + 2 < 3 * self.count) × (p.height < self.count) }
        ensures few { (result.height ≡ p.height + 1) × ((result.names ≡ p.names) × (result.events ≤ p.events + 3)) }
        ensures writes { Writes self p words.old result words.new (λ k line. begun k (span_of line s) v slots fault) }
    {
        let q = self.blame(words, p, s, fault);
        let r = self.tell(words, q, s, v);
        let call = Frame {
            ty: v.ty,
            span: s,
            slots,
        };
        self.push(words, r, call)
    }
}

impl<L: Lookup> Checker<'_, L> {
    // What a name means here.
    pub fn meaning(&self, words: &[u32], s: Span) -> Result<Meaning, Want>
        requires { Within self.now.b words.now }
        ensures { HereSays (L.Lookup.book self.now.look.now (take self.now.b.base words.now)) (take self.now.b.len words.now) s result }
    {
        self.look.here(words, self.b, s).ok_or(Want::Here(s))
    }

    pub fn name(&self, words: &mut [u32], p: Place, s: Span) -> Result<Place, Want>
        requires { Ready self.now.b p words.old }
        ensures { TurnSays (L.Lookup.book self.now.look.now) self.now.b p words.old words.new (λ line. o_name (span_of line s)) result }
    {
        if let Some(x) = self.b.find(words, p, s) {
            let v = Verdict::typed(x.ty).linked(Link::Local(x.span.from));
            return Ok(self.b.tell_value(words, p, s, v, s));
        }
        let m = self.meaning(words, s)?;
        let v = self.judge(words, m, Role::Alone);
        Ok(self.b.tell_value(words, p, s, v, s))
    }

    // The slots of what is called, if it has any to fill.
    fn slots_of(&self, words: &[u32], m: Meaning) -> Option<Slots>
        requires { Within self.now.b words.now }
        ensures { SlotsSay (L.Lookup.book self.now.look.now (take self.now.b.base words.now)) m result }
    {
        let Meaning::Found(sig) = m else {
            return None;
        };
        let fits = Role::Called.fits(self.look.sort(words, self.b, sig));
        fits.then_some(Slots { sig, next: 0 })
    }

    // What is wrong with the number of arguments, n, of what has those slots.
    fn miscount(&self, words: &[u32], slots: Option<Slots>, n: u32) -> Option<Fault>
        requires { Within self.now.b words.now }
        ensures { (t : Tok) → blamed result t.from t.to ≡ count_fault t n (slots_opt (L.Lookup.book self.now.look.now (take self.now.b.base words.now)) slots) }
    {
        let count = self.look.slots(words, self.b, slots?.sig);
        (count != n).then_some(Fault::OtherCount)
    }

    pub fn call(&self, words: &mut [u32], p: Place, s: Span, n: u32) -> Result<Place, Want>
        requires { Ready self.now.b p words.old }
        ensures { TurnSays (L.Lookup.book self.now.look.now) self.now.b p words.old words.new (λ line. o_call (span_of line s) n) result }
    {
        if let Some(x) = self.b.find(words, p, s) {
            let v = Verdict::wrong(Fault::Misplaced).linked(Link::Local(x.span.from));
            return Ok(self.b.begin(words, p, s, v, None, None));
        }
        let m = self.meaning(words, s)?;
        let v = self.judge(words, m, Role::Called);
        let slots = self.slots_of(words, m);
        let fault = self.miscount(words, slots, n);
        Ok(self.b.begin(words, p, s, v, slots, fault))
    }

    // What a field of that name is, of something that has that meaning.
    fn member(&self, words: &[u32], m: Meaning, x: Span) -> Verdict
        requires { Within self.now.b words.now }
        ensures { verdict_said (L.Lookup.book self.now.look.now (take self.now.b.base words.now)) (span_of (take self.now.b.len words.now) x) result ≡ member_said (span_of (take self.now.b.len words.now) x) (meaning_is (L.Lookup.book self.now.look.now (take self.now.b.base words.now)) m) }
    {
        let missing = Verdict::wrong(Fault::NoField);
        let Meaning::Found(sig) = m else {
            return missing;
        };
        let Sort::Record = self.look.sort(words, self.b, sig) else {
            return missing;
        };
        match self.look.field(words, self.b, sig, x) {
            Some(ty) => Verdict::typed(TypeWord::pack(ty)),
            None => missing,
        }
    }

    // What a field of that name is, of something of that type.
    fn field_of(&self, words: &[u32], ty: TypeWord, x: Span) -> Result<Verdict, Want>
        requires { Within self.now.b words.now }
        ensures { FieldTurn (L.Lookup.book self.now.look.now (take self.now.b.base words.now)) (take self.now.b.len words.now) (typ (L.Lookup.book self.now.look.now (take self.now.b.base words.now)) ty.0) (span_of (take self.now.b.len words.now) x) result }
    {
        let Some(ty) = ty.unpack() else {
            return Ok(Verdict::typed(TypeWord::NONE));
        };
        let Type::Of(of) = ty else {
            return Ok(Verdict::wrong(Fault::NoField));
        };
        let m = self.look.there(words, self.b, of).ok_or(Want::There(of))?;
        Ok(self.member(words, m, x))
    }

    pub fn field(&self, words: &mut [u32], p: Place, x: Span) -> Result<Place, Want>
        requires { Ready self.now.b p words.old }
        ensures { TurnSays (L.Lookup.book self.now.look.now) self.now.b p words.old words.new (λ line. o_field (span_of line x)) result }
    {
        let of = self.b.newest(words, p);
        let v = self.field_of(words, of.ty, x)?;
        let span = Span {
            from: of.span.from,
            to: x.to,
        };
        Ok(self.b.tell_value(words, p.below(), x, v, span))
    }
}
