// Answers given in numbers that are lent.
ghost use Rattle.std.specs.Prelude.{◌+◌, ◌*◌, ◌≤◌, length};
ghost use Rattle.findings.specs.Gathered.{gathered, three_at};
ghost use Rattle.findings.specs.Giving.{GivenSays, Put};

// Too few numbers were lent for an answer: how many it has.
#[derive(Clone, Copy, PartialEq, Eq, Debug)]
pub struct Short(pub usize);

// The three numbers of the fault in the four words from i on, its place counted from the file's beginning, put from j on.
fn put_three(words: &[u32], i: usize, out: &mut [u64], j: usize)
    requires reads { i + 4 ≤ length words.now }
    requires writes { j + 3 ≤ length out.old }
    ensures { Put (three_at words.now i) j out.old out.new }
{
    let start = u64::from(words[i]);
    out[j] = start + u64::from(words[i + 1]);
    out[j + 1] = start + u64::from(words[i + 2]);
    out[j + 2] = u64::from(words[i + 3]);
}

// The n faults that are gathered from q on, three numbers each, at the front of out: how many numbers. Nothing is written where they
// don't fit. They are written by their places: of parts lent for writing only the lengths are known behind the loop.
pub fn give_faults(words: &[u32], q: usize, n: usize, out: &mut [u64]) -> Result<usize, Short>
    requires { q + 4 * n ≤ length words.now }
    ensures { GivenSays (gathered words.now q n) out.old out.new result }
{
    if 3 * n > out.len() {
        return Err(Short(3 * n));
    }
    for i in 0..n {
        put_three(words, q + 4 * i, out, 3 * i);
    }
    Ok(3 * n)
}

// A row of words, each as a number, in out from k on. They go by enumerate: of parts lent for writing only the lengths are known behind
// the loop.
pub fn give_words(words: &[u32], out: &mut [u64], k: usize)
    requires { k + length words.now ≤ length out.old }
    ensures { Put words.now k out.old out.new }
{
    for (i, word) in words.iter().enumerate() {
        out[k + i] = u64::from(*word);
    }
}
