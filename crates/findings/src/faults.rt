// The faults of lines, gathered in the order of the lines for an answer.
ghost use Rattle.std.specs.Prelude.{◌≡◌, ◌+◌, ◌*◌, ◌≤◌, ◌++◌, length, take};
ghost use Rattle.semantics.specs.Answers.{fault_words};
ghost use Rattle.findings.specs.Said.{fault_in, faults_read, FaultSays};
ghost use Rattle.findings.specs.Gathered.{gathered, four};

use checker::said::{Event, Said};
use diagnostics::Findings;
use parser::code::Span;

// A fault: where in its line, and its number. Any words are read, so that the number may be that of no fault.
#[derive(Clone, Copy)]
pub struct FaultAt {
    pub span: Span,
    pub number: u32,
}

// The thing said in the four words from a place on, if it is a fault.
pub fn fault_at(words: &[u32], i: usize) -> Option<FaultAt>
    requires { i + 4 ≤ length words.now }
    ensures { FaultSays (fault_in words.now i) result }
{
    let Event { span, said } = Event::read(words, i);
    let Said::Fault(number) = said else {
        return None;
    };
    Some(FaultAt { span, number })
}

// A fault of a line that begins at a place of its file, in the four words from i on.
fn put_fault(words: &mut [u32], i: usize, start: u32, x: FaultAt)
    requires { i + 4 ≤ length words.old }
    ensures { words.new ≡ four words.old i start x.span.from x.span.to x.number }
{
    words[i] = start;
    words[i + 1] = x.span.from;
    words[i + 2] = x.span.to;
    words[i + 3] = x.number;
}

// The faults among what was said of a line that begins at a place of its file, put behind the n that are gathered from q on; how many
// there are then. What stands before q stays as it was.
pub fn gather(words: &mut [u32], f: Findings, start: u32, q: usize, n: usize) -> usize
    requires apart { q + 4 * (n + f.count) ≤ f.«at» }
    requires within { f.«at» + 4 * f.count ≤ length words.old }
    ensures front { take q words.new ≡ take q words.old }
    ensures adds { gathered words.new q result ≡ gathered words.old q n ++ fault_words start (faults_read words.old f.«at» f.count) }
    ensures few { result ≤ n + f.count }
{
    let (out, row) = words.split_at_mut(f.at);
    let mut m = n;
    for i in 0..f.count {
        let Some(x) = fault_at(row, 4 * i) else {
            continue;
        };
        put_fault(out, q + 4 * m, start, x);
        m += 1;
    }
    m
}
