// Words of the row: where they stand, and how they are written.
ghost use Rattle.std.specs.Prelude.{◌≡◌, ◌+◌, ◌<◌, ◌≤◌, length};
ghost use Rattle.memo.specs.Record.{puts};
ghost use Rattle.memo.specs.Log.{pointed};

// The row's first words: how many words the log has, how many records, how many buckets; and where the buckets' heads begin.
pub const LOG: usize = 0;

pub const RECORDS: usize = 1;

pub const BUCKETS: usize = 2;

pub const HEADS: usize = 3;

// Words written over others, from a place on.
pub fn put(words: &mut [u32], i: usize, xs: &[u32])
    requires { i + length xs.now ≤ length words.old }
    ensures { words.new ≡ puts i xs.now words.old }
{
    words[i..i + xs.len()].copy_from_slice(xs);
}

// A bucket's head, the log's length and the number of records written.
pub fn point(words: &mut [u32], b: usize, head: u32, depth: u32, count: u32)
    requires { 3 + b < length words.old }
    ensures { words.new ≡ pointed words.old b head depth count }
{
    words[HEADS + b] = head;
    words[LOG] = depth;
    words[RECORDS] = count;
}
