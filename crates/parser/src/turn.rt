// What a turn of the parser begins with, what it comes to, and what turns share. No turn can fail for want of room: its caller has seen to that.
ghost use Rattle.std.specs.Prelude.{◌<◌, ◌≤◌, ◌*◌, ◌+◌, length};
ghost use Rattle.parser.specs.Rows.{op_is, frame_is, line_of, NextSays, TakesSays, Ready, Does, Emits, puts, waits};

use crate::code::{Op, Span, emit};
use crate::parse::Wrong;
use crate::stack::{Frame, push};
use lexer::reader::peek;
use lexer::token::Token;

// Levels of a value: 0 let and if, 1 or, 2 and, 3 one comparison, 4 sums, 5 products, 6 fields, 7 the smallest.
// Numbers, as a value that nothing of its level takes goes one level down.
pub const WHOLE: u32 = 0;

pub const COMPARED: u32 = 3;

pub const FIELDS: u32 = 6;

pub const SMALLEST: u32 = 7;

// Where the parser stands in a row of words: where the line ends and where the code begins, which stay as they are;
// the place in the line, how many frames wait, and how many operations are there.
#[derive(Clone, Copy)]
pub struct Cursor {
    pub len: usize,
    pub base: usize,
    pub at: usize,
    pub depth: usize,
    pub count: usize,
}

// The next piece: what it is, where it stands, and the cursor behind it.
#[derive(Clone, Copy)]
pub struct Next {
    pub token: Token,
    pub span: Span,
    pub behind: Cursor,
}

// An expression is to begin; an atom is to begin; a value of this level is there.
#[derive(Clone, Copy)]
pub enum Phase {
    Begin,
    Atom,
    Value(u32),
}

// What a turn comes to: it goes on from a place; an expression is there.
#[derive(Clone, Copy)]
pub enum Step {
    Go(Phase, Cursor),
    Won(Cursor),
}

impl Cursor {
    // The next piece.
    pub fn look(self, words: &[u32]) -> Next
        requires within { (self.«at» ≤ self.len) × (self.len ≤ length words.now) }
        requires short { self.len < 4294967000 }
        ensures { NextSays self words.now result }
    {
        let s = peek(&words[..self.len], self.at);
        let span = Span {
            from: s.from as u32,
            to: s.to as u32,
        };
        Next {
            token: s.token,
            span,
            behind: Cursor { at: s.to, ..self },
        }
    }

    // The next piece, which has to be this one.
    pub fn expect(self, words: &[u32], wanted: Token) -> Result<Next, Wrong>
        requires within { (self.«at» ≤ self.len) × (self.len ≤ length words.now) }
        requires short { self.len < 4294967000 }
        ensures { TakesSays self words.now wanted result }
    {
        let s = self.look(words);
        if s.token == wanted {
            Ok(s)
        } else {
            Err(Wrong { at: self.at })
        }
    }

    // One operation more.
    pub fn emit(self, words: &mut [u32], op: Op) -> Cursor
        requires { Ready 5 self words.old }
        ensures { Emits self words.old words.new (λ line. op_is line op) result }
    {
        emit(words, self.base, self.count, op);
        Cursor {
            count: self.count + 1,
            ..self
        }
    }

    // One operation more, and a value of a level is there.
    pub fn put(self, words: &mut [u32], op: Op, l: u32) -> Result<Step, Wrong>
        requires { Ready 9 self words.old }
        ensures { Does self words.old words.new (λ line. puts (op_is line op) l) result }
    {
        let q = self.emit(words, op);
        Ok(Step::Go(Phase::Value(l), q))
    }

    // A frame waits, for what begins.
    pub fn wait(self, words: &mut [u32], f: Frame, begins: Phase) -> Result<Step, Wrong>
        requires { Ready 9 self words.old }
        ensures { Does self words.old words.new (λ line. waits (frame_is line f) begins) result }
    {
        push(words, self.depth, f);
        let q = Cursor {
            depth: self.depth + 1,
            ..self
        };
        Ok(Step::Go(begins, q))
    }
}
