// Where reading stands in a line, and its smallest steps.
ghost use Rattle.std.specs.Prelude.{◌≡◌, ℕ, ◌+◌, ◌*◌, ◌<◌, ◌≤◌, List, [], ◌∷◌, length, IfOk};
ghost use Rattle.lexer.specs.Seen.{SeenSays};
ghost use Rattle.parser.specs.Rows.{op_is};
ghost use Rattle.syntax.specs.Reads.{word, ends, line_of, Spare, TakesSays, Emits, Does};

use crate::wanted::Wanted;
use lexer::reader::{Seen, peek};
use lexer::token::Token;
use parser::code::{Op, Span, emit};
use parser::parse::Wrong;

// Where the line ends and where the code begins, which stay as they are; the place in the line, and how many operations are there.
#[derive(Clone, Copy)]
pub struct Reading {
    pub len: usize,
    pub base: usize,
    pub at: usize,
    pub count: usize,
}

impl Reading {
    // What is next.
    pub fn next(self, words: &[u32]) -> Seen
        requires { self.len ≤ length words.now }
        ensures { SeenSays (line_of self words.now) self.«at» result }
    {
        peek(&words[..self.len], self.at)
    }

    // The next piece, if it is what is wanted, and reading behind it.
    pub fn expect(self, words: &[u32], wanted: Wanted) -> Result<(Span, Reading), Wrong>
        requires { (self.len ≤ length words.now) × (self.len < 4294967296) }
        ensures { TakesSays self words.now (word wanted) result }
    {
        let next = self.next(words);
        if !wanted.is(next.token) {
            return Err(Wrong { at: self.at });
        }
        let span = Span {
            from: next.from as u32,
            to: next.to as u32,
        };
        Ok((
            span,
            Reading {
                at: next.to,
                ..self
            },
        ))
    }

    // One operation more.
    pub fn emit(self, words: &mut [u32], op: Op) -> Reading
        requires { Spare self words.old }
        ensures { Emits self words.old words.new (λ line. op_is line op) result }
    {
        emit(words, self.base, self.count, op);
        Reading {
            count: self.count + 1,
            ..self
        }
    }

    // Nothing may be left; one operation more then ends the item.
    pub fn last(self, words: &mut [u32], op: Op) -> Result<Reading, Wrong>
        requires { Spare self words.old }
        ensures { Does self words.old words.new (λ line. ends (op_is line op ∷ [])) result }
    {
        self.end(words)?;
        Ok(self.emit(words, op))
    }

    // Nothing may be left.
    pub fn end(self, words: &[u32]) -> Result<Reading, Wrong>
        requires { (self.«at» ≤ self.len) × (self.len ≤ length words.now) }
        ensures { Does self words.now words.now (λ _. ends []) result }
    {
        if self.next(words).token == Token::End {
            Ok(self)
        } else {
            Err(Wrong { at: self.at })
        }
    }
}
