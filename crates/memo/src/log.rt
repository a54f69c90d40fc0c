// The log and the index over it: making an empty memo, and adding a record. The table of the row's words stands in specs/Log.
ghost use Rattle.std.specs.Prelude.{◌≡◌, ◌+◌, ◌*◌, ◌<◌, ◌≤◌, true, [], length, slice_index, IfOk};
ghost use Rattle.memo.specs.Record.{gots_of, row_long, made};
ghost use Rattle.memo.specs.Log.{Fits, kept_entries, spare, capacity};
ghost use Rattle.memo.specs.Says.{Keeps, StoreSays, Created, Emptied};
ghost use Rattle.memo.specs.Whether.{memo_ready};

use crate::chain::bucket_of;
use crate::index::Memo;
use crate::record::Parts;
use crate::row::{BUCKETS, HEADS, LOG, RECORDS, point};

// There is too little room for what was asked, and the entries are as they were.
#[derive(Clone, Copy, PartialEq, Eq, Debug)]
pub struct NoRoom;

// An empty memo: a sixteenth of the words are buckets.
pub fn create(words: &mut [u32]) -> Result<(), NoRoom>
    requires { length words.old < 4294967296 }
    ensures says { Created words.old words.new result }
    ensures ready { IfOk result (λ u. memo_ready words.new ≡ true) }
{
    if words.len() < 4 {
        return Err(NoRoom);
    }
    let buckets = 1 + (words.len() - 4) / 16;
    empty(words, buckets as u32);
    Ok(())
}

// All entries dropped: every word that isn't the index's is free.
pub fn forget(words: &mut [u32])
    requires { (Fits words.old) × (length words.old < 4294967296) }
    ensures fits { Fits words.new }
    ensures is { kept_entries words.new ≡ [] }
    ensures room { spare words.new ≡ capacity words.old }
    ensures buckets { slice_index words.new 2 ≡ slice_index words.old 2 }
{
    let buckets = words[BUCKETS];
    empty(words, buckets);
}

// No entries, and so many buckets.
fn empty(words: &mut [u32], buckets: u32)
    requires { (1 ≤ buckets) × (3 + buckets ≤ length words.old) }
    ensures { Emptied buckets words.old words.new }
{
    words[HEADS..HEADS + buckets as usize].fill(0);
    words[BUCKETS] = buckets;
    point(words, 0, 0, 0, 0);
}

// An entry stored, as one more record, if there is room: its answer, the keys that it asked, and the row of the answers that it got.
pub fn append(words: &mut [u32], entry: Parts) -> Result<(), NoRoom>
    requires fits { Fits words.old }
    requires small { (length words.old < 4294967296) × (length entry.ans.now < 4294967296) × (length entry.row.now < 4294967296) × (entry.count < 4294967296) }
    requires asked { (length entry.keys.now ≡ 3 * entry.count) × (row_long entry.count entry.row.now ≡ length entry.row.now) }
    ensures fits { Fits words.new }
    ensures says { StoreSays (made entry.entry.key entry.entry.ans.now (gots_of entry.entry.count entry.entry.keys.now entry.entry.row.now)) words.old words.new result }
    ensures keeps { Keeps words.old words.new }
    ensures buckets { slice_index words.new 2 ≡ slice_index words.old 2 }
{
    let memo = Memo { words: &words[..] };
    let size = entry.size();
    if memo.spare() < size {
        return Err(NoRoom);
    }
    let b = bucket_of(&entry.key, words[BUCKETS] as usize);
    let depth = words[LOG] as usize;
    let prev = words[HEADS + b];
    let records = words[RECORDS];
    let p = words.len() - depth - size;
    entry.write(words, p, prev);
    let depth = (depth + size) as u32;
    point(words, b, depth, depth, records + 1);
    Ok(())
}
