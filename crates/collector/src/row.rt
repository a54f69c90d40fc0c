// Words of the row, written.
ghost use Rattle.std.specs.Prelude.{◌+◌, ◌≤◌, length};
ghost use Rattle.collector.specs.Rows.{Wrote, Held};

// Words written over others, from a place on.
pub fn put(words: &mut [u32], at: usize, xs: &[u32])
    requires { «at» + length xs.now ≤ length words.old }
    ensures wrote { Wrote «at» («at» + length xs.now) words.old words.new }
    ensures held { Held words.new «at» xs.now }
{
    words[at..at + xs.len()].copy_from_slice(xs);
}
