// One turn for each operation. Whatever has to be looked up is looked up before anything is written.
ghost use Rattle.std.specs.Prelude.{◌≡◌, ℕ, ◌+◌, ◌-◌, ◌*◌, ◌<◌, ◌≤◌, List, ◌++◌, take};
ghost use Rattle.lexer.specs.Kinds.{operator};
ghost use Rattle.grammar.specs.Code.{o_num, o_arg, o_end, o_op, o_cond, o_if, o_bind, o_let, o_par, o_body, o_bad};
ghost use Rattle.parser.specs.Rows.{span_of};
ghost use Rattle.std.proofs.Math.Option.{some};
ghost use Rattle.semantics.specs.Check.{of_slot, op_type};
ghost use Rattle.semantics.specs.Walk.{tells};
ghost use Rattle.checker.specs.Rows.{Book, typ, means, code_end, with_said, Fits};
ghost use Rattle.checker.specs.Turns.{Ready, Goes, operand_word};

use crate::check::Checker;
use crate::lookup::Lookup;
use crate::packed::TypeWord;
use crate::rows::{Bound, Frame, Place};
use lexer::token::Operator;
use parser::code::Span;
use semantics::fault::Fault;

// What both operands of an operator have to be, where that is the same for each of its uses; and what it comes to.
fn operand_type(o: Operator) -> TypeWord
    ensures { result.0 ≡ operand_word (operator o) }
{
    match o {
        Operator::Plus | Operator::Minus | Operator::Times | Operator::Less => TypeWord::NUM,
        Operator::And | Operator::Or => TypeWord::BOOL,
        Operator::Equal => TypeWord::NONE,
    }
}

fn result_type(o: Operator) -> TypeWord
    ensures { (k : Book) → typ k result.0 ≡ some (op_type (operator o)) }
{
    match o {
        Operator::Plus | Operator::Minus | Operator::Times => TypeWord::NUM,
        Operator::Equal | Operator::Less | Operator::And | Operator::Or => TypeWord::BOOL,
    }
}

impl<L: Lookup> Checker<'_, L> {
    pub fn number(&self, words: &mut [u32], p: Place, s: Span) -> Place
        requires { Ready self.now.b p words.old }
        ensures { Goes (L.Lookup.book self.now.look.now) self.now.b p words.old result words.new (λ line. o_num (span_of line s)) }
    {
        self.b.value(words, p, s, TypeWord::NUM)
    }

    // A call ends.
    pub fn end(&self, words: &mut [u32], p: Place, to: u32) -> Place
        requires { Ready self.now.b p words.old }
        ensures { Goes (L.Lookup.book self.now.look.now) self.now.b p words.old result words.new (λ line. o_end to) }
    {
        let call = self.b.newest(words, p);
        let span = Span {
            from: call.span.from,
            to,
        };
        self.b.value(words, p.below(), span, call.ty)
    }

    pub fn brackets(&self, words: &mut [u32], p: Place, s: Span) -> Place
        requires { Ready self.now.b p words.old }
        ensures { Goes (L.Lookup.book self.now.look.now) self.now.b p words.old result words.new (λ line. o_par s.from s.to) }
    {
        let v = self.b.newest(words, p);
        self.b.push(words, p.below(), Frame::value(v.ty, s))
    }

    // A let's name gets its value.
    pub fn bound(&self, words: &mut [u32], p: Place, s: Span) -> Place
        requires { Ready self.now.b p words.old }
        ensures { Goes (L.Lookup.book self.now.look.now) self.now.b p words.old result words.new (λ line. o_bind (span_of line s)) }
    {
        let v = self.b.newest(words, p);
        self.b.bind(words, p.below(), Bound { span: s, ty: v.ty })
    }

    // A let that began there ends.
    pub fn end_let(&self, words: &mut [u32], p: Place, from: u32) -> Place
        requires { Ready self.now.b p words.old }
        ensures { Goes (L.Lookup.book self.now.look.now) self.now.b p words.old result words.new (λ line. o_let from) }
    {
        let v = self.b.newest(words, p);
        let span = Span {
            from,
            to: v.span.to,
        };
        self.b.value(words, p.below().unbind(), span, v.ty)
    }

    pub fn misread(&self, words: &mut [u32], p: Place, s: Span) -> Place
        requires { Ready self.now.b p words.old }
        ensures { Goes (L.Lookup.book self.now.look.now) self.now.b p words.old result words.new (λ line. o_bad s.from s.to) }
    {
        self.b.blame(words, p, s, Some(Fault::NotUnderstood))
    }

    pub fn condition(&self, words: &mut [u32], p: Place) -> Place
        requires { Ready self.now.b p words.old }
        ensures { Goes (L.Lookup.book self.now.look.now) self.now.b p words.old result words.new (λ line. o_cond) }
    {
        let v = self.b.newest(words, p);
        let wrong = self.clash(words, TypeWord::BOOL, v.ty);
        self.b.blame(words, p.below(), v.span, wrong)
    }

    // What is wrong with two operands where both have to be of one type.
    fn operands(&self, words: &mut [u32], p: Place, wanted: TypeWord, x: Frame, y: Frame) -> Place
        requires fits { Fits self.now.b p words.old }
        requires less { p.events + 1 < 3 * self.now.b.count }
        ensures few { (result.height ≡ p.height) × ((result.names ≡ p.names) × (result.events ≤ p.events + 2)) }
        ensures before { take (code_end self.now.b) words.new ≡ take (code_end self.now.b) words.old }
        ensures becomes { (line : List ℕ) → means (L.Lookup.book self.now.look.now (take self.now.b.base words.old)) line self.now.b result words.new ≡ with_said (tells (of_slot (typ (L.Lookup.book self.now.look.now (take self.now.b.base words.old)) wanted.0) x.span.from x.span.to (typ (L.Lookup.book self.now.look.now (take self.now.b.base words.old)) x.ty.0) ++ of_slot (typ (L.Lookup.book self.now.look.now (take self.now.b.base words.old)) wanted.0) y.span.from y.span.to (typ (L.Lookup.book self.now.look.now (take self.now.b.base words.old)) y.ty.0))) (means (L.Lookup.book self.now.look.now (take self.now.b.base words.old)) line self.now.b p words.old) }
    {
        let first = self.clash(words, wanted, x.ty);
        let second = self.clash(words, wanted, y.ty);
        let q = self.b.blame(words, p, x.span, first);
        self.b.blame(words, q, y.span, second)
    }

    pub fn operation(&self, words: &mut [u32], p: Place, o: Operator) -> Place
        requires { Ready self.now.b p words.old }
        ensures { Goes (L.Lookup.book self.now.look.now) self.now.b p words.old result words.new (λ line. o_op (operator o)) }
    {
        let right = self.b.newest(words, p);
        let under = p.below();
        let left = self.b.newest(words, under);
        let rest = under.below();
        let span = Span {
            from: left.span.from,
            to: right.span.to,
        };
        match o {
            Operator::Equal => {
                let wrong = self.clash(words, left.ty, right.ty);
                let q = self.b.blame(words, rest, right.span, wrong);
                self.b.value(words, q, span, TypeWord::BOOL)
            }
            _ => {
                let q = self.operands(words, rest, operand_type(o), left, right);
                self.b.value(words, q, span, result_type(o))
            }
        }
    }

    // An if that began there ends.
    pub fn choice(&self, words: &mut [u32], p: Place, from: u32) -> Place
        requires { Ready self.now.b p words.old }
        ensures { Goes (L.Lookup.book self.now.look.now) self.now.b p words.old result words.new (λ line. o_if from) }
    {
        let second = self.b.newest(words, p);
        let under = p.below();
        let first = self.b.newest(words, under);
        let wrong = self.clash(words, first.ty, second.ty);
        let rest = under.below();
        let q = self.b.blame(words, rest, second.span, wrong);
        let span = Span {
            from,
            to: second.span.to,
        };
        self.b.value(words, q, span, first.ty.or(second.ty))
    }

    pub fn argument(&self, words: &mut [u32], p: Place) -> Place
        requires { Ready self.now.b p words.old }
        ensures { Goes (L.Lookup.book self.now.look.now) self.now.b p words.old result words.new (λ line. o_arg) }
    {
        let v = self.b.newest(words, p);
        let under = p.below();
        let call = self.b.newest(words, under);
        let wanted = self.wanted_by(words, call.slots);
        let wrong = self.clash(words, wanted, v.ty);
        let slots = self.slots_behind(words, call.slots);
        let rest = under.below();
        let q = self.b.blame(words, rest, v.span, wrong);
        self.b.push(words, q, Frame { slots, ..call })
    }

    // The end of a def's body, held against its result.
    pub fn body(&self, words: &mut [u32], p: Place) -> Place
        requires { Ready self.now.b p words.old }
        ensures { Goes (L.Lookup.book self.now.look.now) self.now.b p words.old result words.new (λ line. o_body) }
    {
        let v = self.b.newest(words, p);
        let under = p.below();
        let result = self.b.newest(words, under);
        let wrong = self.clash(words, result.ty, v.ty);
        let rest = under.below();
        self.b.blame(words, rest, v.span, wrong)
    }
}
