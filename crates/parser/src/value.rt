// Turns at which a value is there: what is next takes it in, or it goes to what waits for it.
ghost use Rattle.std.specs.Prelude.{◌≡◌, ℕ, ◌*◌, ◌<◌, ◌≤◌, List, length};
ghost use Rattle.lexer.specs.Kinds.{level_of};
ghost use Rattle.grammar.specs.Machine.{f_par, f_call, f_bound, f_cond, f_then, base, do_value, do_dot, do_op, pop, made};
ghost use Rattle.parser.specs.Rows.{frames_of, span_of, line_of, Ready, Few, Does, after_dot, goes_to};

use crate::code::{Op, Span, patch_count};
use crate::parse::Wrong;
use crate::stack::{Frame, newest};
use crate::turn::{COMPARED, Cursor, FIELDS, Phase, SMALLEST, Step, WHOLE};
use lexer::token::{Operator, Token};

// An operator's level, and the level of what it makes.
fn level(o: Operator) -> u32
    ensures { result ≡ level_of o }
{
    match o {
        Operator::Plus | Operator::Minus => 4,
        Operator::Times => 5,
        Operator::Equal | Operator::Less => 3,
        Operator::And => 2,
        Operator::Or => 1,
    }
}

fn makes(o: Operator) -> u32
    ensures { result ≡ made (level_of o) }
{
    let l = level(o);
    if l == COMPARED { COMPARED } else { l + 1 }
}

impl Cursor {
    // The level at which what is being read began.
    fn lowest(self, words: &[u32]) -> u32
        requires { 4 * self.depth ≤ length words.now }
        ensures { (line : List ℕ) → result ≡ base (frames_of line self.depth words.now) }
    {
        match newest(words, self.depth) {
            Some(Frame::Right(o)) => level(o) + 1,
            _ => 1,
        }
    }

    // A value of a level is there: what is next takes it in, or it goes to what waits.
    pub fn value(self, words: &mut [u32], l: u32) -> Result<Step, Wrong>
        requires { (Ready 24 self words.old) × (Few (frames_of (line_of self words.old) self.depth words.old)) }
        ensures { Does self words.old words.new (λ _. do_value l) result }
    {
        if l <= self.lowest(words) {
            return self.deliver(words);
        }
        let j = l - 1;
        if j == FIELDS {
            return self.dot(words);
        }
        self.operation(words, j)
    }

    // A value of level 7: a field of it, or itself as one of level 6.
    fn dot(self, words: &mut [u32]) -> Result<Step, Wrong>
        requires { Ready 24 self words.old }
        ensures { Does self words.old words.new (λ _. do_dot) result }
    {
        let s = self.look(words);
        match s.token {
            Token::Dot => s.behind.field(words),
            _ => Ok(Step::Go(Phase::Value(FIELDS), self)),
        }
    }

    // Behind a dot.
    fn field(self, words: &mut [u32]) -> Result<Step, Wrong>
        requires { Ready 24 self words.old }
        ensures { Does self words.old words.new (λ _. after_dot) result }
    {
        let s = self.expect(words, Token::Name)?;
        s.behind.put(words, Op::Field(s.span), SMALLEST)
    }

    // A value of a level: an operator of that level takes it, or it is one of that level.
    fn operation(self, words: &mut [u32], j: u32) -> Result<Step, Wrong>
        requires { Ready 24 self words.old }
        ensures { Does self words.old words.new (λ _. do_op j) result }
    {
        let s = self.look(words);
        let Token::Sign(o) = s.token else {
            return Ok(Step::Go(Phase::Value(j), self));
        };
        if level(o) != j {
            return Ok(Step::Go(Phase::Value(j), self));
        }
        s.behind.wait(words, Frame::Right(o), Phase::Atom)
    }

    // A value goes to what waits for it.
    fn deliver(self, words: &mut [u32]) -> Result<Step, Wrong>
        requires { (Ready 24 self words.old) × (Few (frames_of (line_of self words.old) self.depth words.old)) }
        ensures { Does self words.old words.new (λ _. pop) result }
    {
        let Some(frame) = newest(words, self.depth) else {
            return Ok(Step::Won(self));
        };
        let q = Cursor {
            depth: self.depth - 1,
            ..self
        };
        match frame {
            Frame::Par(n) => q.close(words, n),
            Frame::Call(f, k) => q.argument(words, f, k),
            Frame::Bound(n, x) => q.bound(words, n, x),
            Frame::Body(n) => q.put(words, Op::Let(n), WHOLE),
            Frame::Cond(n) => q.condition(words, n),
            Frame::Then(n) => q.branch(words, n),
            Frame::Else(n) => q.put(words, Op::If(n), WHOLE),
            Frame::Right(o) => q.put(words, Op::Sign(o), makes(o)),
        }
    }

    // A value stands in brackets that began at a place.
    fn close(self, words: &mut [u32], n: u32) -> Result<Step, Wrong>
        requires { Ready 24 self words.old }
        ensures { Does self words.old words.new (λ _. goes_to (f_par n)) result }
    {
        let s = self.expect(words, Token::Close)?;
        let all = Span {
            from: n,
            to: s.span.to,
        };
        s.behind.put(words, Op::Par(all), SMALLEST)
    }

    // A value is an argument of the call that begins at operation f and has k before it.
    fn argument(self, words: &mut [u32], f: u32, k: u32) -> Result<Step, Wrong>
        requires { (Ready 24 self words.old) × (k < 4294967295) }
        ensures { Does self words.old words.new (λ _. goes_to (f_call f k)) result }
    {
        let s = self.look(words);
        match s.token {
            Token::Comma => {
                let q = s.behind.emit(words, Op::Arg);
                q.wait(words, Frame::Call(f, k + 1), Phase::Begin)
            }
            Token::Close => {
                let q = s.behind.emit(words, Op::Arg);
                patch_count(words, q.base, q.count, f as usize, k + 1);
                q.put(words, Op::End(s.span.to), SMALLEST)
            }
            _ => Err(Wrong { at: self.at }),
        }
    }

    // A value is what the let that began at a place binds to a name.
    fn bound(self, words: &mut [u32], n: u32, x: Span) -> Result<Step, Wrong>
        requires { Ready 24 self words.old }
        ensures { Does self words.old words.new (λ line. goes_to (f_bound n (span_of line x))) result }
    {
        let s = self.expect(words, Token::In)?;
        let q = s.behind.emit(words, Op::Bind(x));
        q.wait(words, Frame::Body(n), Phase::Begin)
    }

    // A value is the condition of the if that began at a place.
    fn condition(self, words: &mut [u32], n: u32) -> Result<Step, Wrong>
        requires { Ready 24 self words.old }
        ensures { Does self words.old words.new (λ _. goes_to (f_cond n)) result }
    {
        let s = self.expect(words, Token::Then)?;
        let q = s.behind.emit(words, Op::Cond);
        q.wait(words, Frame::Then(n), Phase::Begin)
    }

    // A value is the first branch of the if that began at a place.
    fn branch(self, words: &mut [u32], n: u32) -> Result<Step, Wrong>
        requires { Ready 24 self words.old }
        ensures { Does self words.old words.new (λ _. goes_to (f_then n)) result }
    {
        let s = self.expect(words, Token::Else)?;
        s.behind.wait(words, Frame::Else(n), Phase::Begin)
    }
}
