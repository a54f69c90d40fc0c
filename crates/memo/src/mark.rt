// Marks: the memo as it was, to come back to. Records are only ever added in front, so to go back is to take them off.
ghost use Rattle.std.specs.Prelude.{◌≡◌, ◌<◌, slice_index};
ghost use Rattle.memo.specs.Log.{Fits, kept_entries, Marked, entries_at};
ghost use Rattle.memo.specs.Says.{Popped};

use crate::chain::bucket_of;
use crate::record::{OLDER, Record};
use crate::row::{BUCKETS, LOG, RECORDS, point};

// The memo as it was at some time: the length of its log, and how many records it had.
#[derive(Clone, Copy)]
pub struct Mark {
    pub depth: usize,
    pub count: usize,
}

// The memo as it is now.
pub fn take_mark(words: &[u32]) -> Mark
    requires { Fits words.now }
    ensures marked { Marked words.now result }
    ensures is { entries_at words.now result ≡ kept_entries words.now }
{
    Mark {
        depth: words[LOG] as usize,
        count: words[RECORDS] as usize,
    }
}

// Back to a mark: the entries are those of then.
pub fn roll_back(words: &mut [u32], mark: Mark)
    requires { (Fits words.old) × (Marked words.old mark) }
    ensures fits { Fits words.new }
    ensures is { kept_entries words.new ≡ entries_at words.old mark }
    ensures buckets { slice_index words.new 2 ≡ slice_index words.old 2 }
{
    while words[LOG] as usize > mark.depth {
        pop(words);
    }
}

// The newest record taken off.
fn pop(words: &mut [u32])
    requires { (Fits words.old) × (0 < slice_index words.old 1) }
    ensures fits { Fits words.new }
    ensures popped { Popped words.old words.new }
    ensures buckets { slice_index words.new 2 ≡ slice_index words.old 2 }
{
    let depth = words[LOG] as usize;
    let count = words[RECORDS];
    let record = Record {
        words: &words[..],
        depth,
    };
    let size = record.size();
    let prev = record.word(OLDER);
    let b = bucket_of(&record.key(), words[BUCKETS] as usize);
    point(words, b, prev, (depth - size) as u32, count - 1);
}
