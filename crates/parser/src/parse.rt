// An expression from a place of the line on, as flat code, with no call of itself.
ghost use Rattle.std.specs.Prelude.{◌≡◌, ◌+◌, ◌*◌, ◌<◌, ◌≤◌, length, take};
ghost use Rattle.parser.specs.Rows.{frames_of, line_of, Ready, Few, Does, takes, ReadSays};

use crate::turn::{Cursor, Phase, Step};

// It goes wrong here: at the next piece from this place on, or behind the last.
#[derive(Clone, Copy, PartialEq, Eq, Debug)]
pub struct Wrong {
    pub at: usize,
}

// What was read: up to which place, and how many operations.
#[derive(Clone, Copy, PartialEq, Eq, Debug)]
pub struct Parsed {
    pub at: usize,
    pub count: usize,
}

impl Cursor {
    // A turn.
    fn advance(self, words: &mut [u32], phase: Phase) -> Result<Step, Wrong>
        requires { (Ready 24 self words.old) × (Few (frames_of (line_of self words.old) self.depth words.old)) }
        ensures { Does self words.old words.new (λ _. takes phase) result }
    {
        match phase {
            Phase::Begin => self.begin(words),
            Phase::Atom => self.atom(words),
            Phase::Value(l) => self.value(words, l),
        }
    }
}

// The line is the first len words, the code goes from word base on, and the stack lies at the row's end. What lies before base stays.
pub fn parse(words: &mut [u32], len: usize, from: usize, base: usize) -> Result<Parsed, Wrong>
    requires begins { from ≤ len }
    requires before { len ≤ base }
    requires short { len < 4294967000 }
    requires room { base + 9 * len + 64 ≤ length words.old }
    ensures kept { take base words.new ≡ take base words.old }
    ensures reads { ReadSays (take len words.old) len base from words.new result }
{
    let mut phase = Phase::Begin;
    let mut p = Cursor {
        len,
        base,
        at: from,
        depth: 0,
        count: 0,
    };
    loop {
        match p.advance(words, phase)? {
            Step::Go(m, q) => {
                phase = m;
                p = q;
            }
            Step::Won(q) => {
                return Ok(Parsed {
                    at: q.at,
                    count: q.count,
                });
            }
        }
    }
}
