// The whole: a line's code, operation by operation.
ghost use Rattle.std.specs.Prelude.{◌≡◌, ℕ, ◌+◌, ◌*◌, ◌<◌, ◌≤◌, length, take};
ghost use Rattle.parser.specs.Rows.{op_is};
ghost use Rattle.checker.specs.Rows.{code_end};
ghost use Rattle.checker.specs.Turns.{Ready, TurnSays};
ghost use Rattle.checker.specs.Whole.{WalkSays, told_of, LineSays, RoomSays, CheckSays};
ghost use Rattle.checker.specs.declared.check.Stop.TheVariants.{Needs};

use crate::lookup::{Lookup, Want};
use crate::rows::{Bounds, Place};
use parser::code::{Op, op_at};

// Why it stopped: something has to be known first; or too few words were lent.
#[derive(Clone, Copy)]
pub enum Stop {
    Needs(Want),
    NoRoom,
}

impl From<Want> for Stop {
    ghost from_gives = { λ w s. s ≡ Needs w };

    fn from(want: Want) -> Stop {
        Stop::Needs(want)
    }
}

// What checks a line: what names are looked up in, and the line's bounds.
#[derive_where(Clone, Copy)]
pub(crate) struct Checker<'a, L> {
    pub(crate) look: &'a L,
    pub(crate) b: Bounds,
}

impl<L: Lookup> Checker<'_, L> {
    fn turn(&self, words: &mut [u32], p: Place, op: Op) -> Result<Place, Want>
        requires { Ready self.now.b p words.old }
        ensures { TurnSays (L.Lookup.book self.now.look.now) self.now.b p words.old words.new (λ line. op_is line op) result }
    {
        match op {
            Op::Number(s) => Ok(self.number(words, p, s)),
            Op::Name(s) => self.name(words, p, s),
            Op::Call(s, n) => self.call(words, p, s, n),
            Op::Arg => Ok(self.argument(words, p)),
            Op::End(to) => Ok(self.end(words, p, to)),
            Op::Field(x) => self.field(words, p, x),
            Op::Sign(o) => Ok(self.operation(words, p, o)),
            Op::Cond => Ok(self.condition(words, p)),
            Op::If(from) => Ok(self.choice(words, p, from)),
            Op::Bind(s) => Ok(self.bound(words, p, s)),
            Op::Let(from) => Ok(self.end_let(words, p, from)),
            Op::Par(s) => Ok(self.brackets(words, p, s)),
            Op::Use(s) => self.use_file(words, p, s),
            Op::New(s) => self.new_name(words, p, s),
            Op::Const(s) => self.constant(words, p, s),
            Op::Slot(x, ty) => self.slot(words, p, x, ty),
            Op::Result(s) => self.result(words, p, s),
            Op::Body => Ok(self.body(words, p)),
            Op::Bad(s) => Ok(self.misread(words, p, s)),
        }
    }

    // The walk over all operations. They are read one by one, since the row in which they are is written.
    fn walk(&self, words: &mut [u32]) -> Result<Place, Want>
        requires line { self.now.b.len ≤ self.now.b.base }
        requires room { self.now.b.base + 25 * self.now.b.count ≤ length words.old }
        ensures kept { take (code_end self.now.b) words.new ≡ take (code_end self.now.b) words.old }
        ensures walks { WalkSays (L.Lookup.book self.now.look.now) self.now.b words.old words.new result }
        ensures says { LineSays (L.Lookup.book self.now.look.now) self.now.b words.old words.new (told_of result) }
    {
        let mut p = Place {
            height: 0,
            names: 0,
            events: 0,
        };
        for i in 0..self.b.count {
            let op = op_at(words, self.b.base, i);
            p = self.turn(words, p, op)?;
        }
        Ok(p)
    }
}

impl Bounds {
    // Whether there are words enough: 25 for each operation, the code's five among them, behind a base that isn't inside the line.
    fn has_room(self, words: usize) -> bool
        ensures { RoomSays words self result }
    {
        self.len <= self.base && self.base <= words && self.count <= (words - self.base) / 25
    }
}

// Checks a line that lies in the words with its code. What is said comes to stand behind the code, so many things as are given back;
// what lies before that, and the code, stay as they were. Or it gives back why it stopped.
pub fn check<L: Lookup>(look: &L, words: &mut [u32], b: Bounds) -> Result<usize, Stop>
    ensures kept { take (code_end b) words.new ≡ take (code_end b) words.old }
    ensures says { CheckSays (L.Lookup.book look.now) b words.old words.new result }
{
    if !b.has_room(words.len()) {
        return Err(Stop::NoRoom);
    }
    match (Checker { look, b }).walk(words) {
        Ok(p) => Ok(p.events),
        Err(want) => Err(Stop::from(want)),
    }
}
