// Turns at which something begins: an expression or an atom.
ghost use Rattle.grammar.specs.Machine.{do_begin, do_atom, do_call};
ghost use Rattle.parser.specs.Rows.{span_of, line_of, Ready, Does, after_let, after_name};

use crate::code::{Op, Span};
use crate::parse::Wrong;
use crate::stack::Frame;
use crate::turn::{Cursor, Phase, SMALLEST, Step};
use lexer::token::Token;

impl Cursor {
    // An expression begins.
    pub fn begin(self, words: &mut [u32]) -> Result<Step, Wrong>
        requires { Ready 24 self words.old }
        ensures { Does self words.old words.new (λ _. do_begin) result }
    {
        let s = self.look(words);
        match s.token {
            Token::Let => s.behind.name_bound(words, s.span.from),
            Token::If => s.behind.wait(words, Frame::Cond(s.span.from), Phase::Begin),
            _ => Ok(Step::Go(Phase::Atom, self)),
        }
    }

    // Behind a let that began at a place: its name and =.
    fn name_bound(self, words: &mut [u32], n: u32) -> Result<Step, Wrong>
        requires { Ready 24 self words.old }
        ensures { Does self words.old words.new (λ _. after_let n) result }
    {
        let x = self.expect(words, Token::Name)?;
        let g = x.behind.expect(words, Token::Gets)?;
        g.behind.wait(words, Frame::Bound(n, x.span), Phase::Begin)
    }

    // An atom begins.
    pub fn atom(self, words: &mut [u32]) -> Result<Step, Wrong>
        requires { Ready 24 self words.old }
        ensures { Does self words.old words.new (λ _. do_atom) result }
    {
        let s = self.look(words);
        match s.token {
            Token::Open => s.behind.wait(words, Frame::Par(s.span.from), Phase::Begin),
            Token::Number => s.behind.put(words, Op::Number(s.span), SMALLEST),
            Token::Name => s.behind.named(words, s.span),
            _ => Err(Wrong { at: self.at }),
        }
    }

    // Behind a name: a call of it, or itself.
    fn named(self, words: &mut [u32], f: Span) -> Result<Step, Wrong>
        requires { Ready 24 self words.old }
        ensures { Does self words.old words.new (λ line. after_name (span_of line f)) result }
    {
        let s = self.look(words);
        match s.token {
            Token::Open => s.behind.call(words, f),
            _ => self.put(words, Op::Name(f), SMALLEST),
        }
    }

    // Behind a name and its bracket.
    fn call(self, words: &mut [u32], f: Span) -> Result<Step, Wrong>
        requires { Ready 24 self words.old }
        ensures { Does self words.old words.new (λ line. do_call (span_of line f)) result }
    {
        let s = self.look(words);
        match s.token {
            Token::Close => {
                let q = s.behind.emit(words, Op::Call(f, 0));
                q.put(words, Op::End(s.span.to), SMALLEST)
            }
            _ => {
                let q = self.emit(words, Op::Call(f, 0));
                q.wait(words, Frame::Call(self.count as u32, 0), Phase::Begin)
            }
        }
    }
}
