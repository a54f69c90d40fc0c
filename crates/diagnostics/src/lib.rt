// What is said of one line: it is read and checked, in one row of words, for any way of looking names up.
#![tactic(auto)]

ghost use Rattle.std.specs.Prelude.{◌≡◌, ◌+◌, ◌≤◌, length, take};
ghost use Rattle.checker.specs.declared.check.Stop.TheVariants.{NoRoom as TooFew};
ghost use Rattle.diagnostics.specs.Diagnose.{RoomySays, WrongSays, CodeSays, DiagnoseSays};

use checker::check::{Stop, check};
use checker::lookup::Lookup;
use checker::rows::Bounds;
use parser::code::{Op, emit};
use syntax::read::{LONGEST, Refusal, read_line};

// What is said of a line: so many things, four words each, from a place on, behind so many operations of the line's code.
#[derive(Clone, Copy, PartialEq, Eq, Debug)]
pub struct Findings {
    pub ops: usize,
    pub at: usize,
    pub count: usize,
}

// Too few words were lent, or a line can't be: it is longer than places go, or not before base.
#[derive(Clone, Copy, PartialEq, Eq, Debug)]
pub struct NoRoom;

impl From<NoRoom> for Stop {
    ghost from_gives = { λ _ s. s ≡ TooFew };

    fn from(_none: NoRoom) -> Stop {
        Stop::NoRoom
    }
}

// How many words are wanted for each byte of a line, and how many more.
const WORDS_A_BYTE: usize = 25;

const WORDS_MORE: usize = 64;

// Whether there are words enough behind base, for a line that stands before it.
pub fn is_roomy(total: usize, len: usize, base: usize) -> bool
    ensures { RoomySays len base total result }
{
    len <= LONGEST
        && len <= base
        && base <= total
        && total - base >= WORDS_A_BYTE * len + WORDS_MORE
}

// The code of a line that isn't understood, from base on: one operation, with the place.
fn code_wrong(words: &mut [u32], base: usize, refusal: Refusal) -> Result<usize, NoRoom>
    requires { base + 5 ≤ length words.old }
    ensures front { take base words.new ≡ take base words.old }
    ensures codes { WrongSays refusal base words.new result }
{
    match refusal {
        Refusal::Wrong(place) => {
            emit(words, base, 0, Op::Bad(place));
            Ok(1)
        }
        Refusal::NoRoom => Err(NoRoom),
    }
}

// The code of the line in the first len words, from base on: how many operations. A line that isn't understood is one.
pub fn code_line(words: &mut [u32], len: usize, base: usize) -> Result<usize, NoRoom>
    ensures front { take base words.new ≡ take base words.old }
    ensures codes { CodeSays words.old len base words.new result }
{
    if !is_roomy(words.len(), len, base) {
        return Err(NoRoom);
    }
    // No or_else: its closure would hold the row, and nothing would be known of that behind it.
    match read_line(words, len, base) {
        Ok(count) => Ok(count),
        Err(refusal) => code_wrong(words, base, refusal),
    }
}

// What is said of the line in the first len words; what stands before base stays as it was. Or what has to be known first, or that too
// few words were lent.
pub fn diagnose<L: Lookup>(
    look: &L,
    words: &mut [u32],
    len: usize,
    base: usize,
) -> Result<Findings, Stop>
    ensures front { take base words.new ≡ take base words.old }
    ensures says { DiagnoseSays (L.Lookup.book look.now) words.old len base words.new result }
{
    let ops = code_line(words, len, base)?;
    let b = Bounds {
        len,
        base,
        count: ops,
    };
    let count = check(look, words, b)?;
    Ok(Findings {
        ops,
        at: base + 5 * ops,
        count,
    })
}
