// Repacking: the same entries in the same order, without the old records. It takes a work area, and happens between bringings only.
ghost use Rattle.std.specs.Prelude.{◌≡◌, ◌+◌, ◌<◌, length, slice_index, MatchResult};
ghost use Rattle.memo.specs.Record.{entries_long};
ghost use Rattle.memo.specs.Log.{Fits, kept_entries, spare, capacity};
ghost use Rattle.memo.specs.Says.{Gathers, RepackSays, gathered, Rebuilds};

use crate::log::{NoRoom, append, forget};
use crate::mark::Mark;
use crate::record::Record;
use crate::row::{LOG, put};

// The same entries in the same order, without old records, if there is room to work in.
pub fn repack(words: &mut [u32], work: &mut [u32]) -> Result<(), NoRoom>
    requires { (Fits words.old) × ((length words.old < 4294967296) × (length work.old < 4294967296)) }
    ensures fits { Fits words.new }
    ensures says { RepackSays words.old words.new (length work.old) result }
    ensures buckets { slice_index words.new 2 ≡ slice_index words.old 2 }
{
    let m = gather(words, work)?;
    rebuild(words, work, m);
    Ok(())
}

// The entries, as records one behind the other in the work area.
fn gather(words: &[u32], work: &mut [u32]) -> Result<Mark, NoRoom>
    requires { Fits words.now }
    ensures { MatchResult result (λ m. Gathers words.now work.new m) (λ e. length work.old < entries_long (kept_entries words.now)) }
{
    let mut d = words[LOG] as usize;
    let mut g = 0;
    let mut n = 0;
    while d != 0 {
        let record = Record { words, depth: d };
        let next = d - record.size();
        if !record.is_oldest() {
            d = next;
            continue;
        }
        let newest = record.newest();
        let s = newest.size();
        if work.len() - g < s {
            return Err(NoRoom);
        }
        let p = work.len() - g - s;
        put(work, p, newest.part(0, s));
        g += s;
        n += 1;
        d = next;
    }
    Ok(Mark { depth: g, count: n })
}

// A memo of the entries that were gathered, in place of what it was.
fn rebuild(words: &mut [u32], work: &[u32], m: Mark)
    requires says { Rebuilds words.old work.now m }
    requires small { (length words.old < 4294967296) × (length work.now < 4294967296) }
    ensures fits { Fits words.new }
    ensures is { kept_entries words.new ≡ gathered work.now m }
    ensures room { spare words.new + entries_long (gathered work.now m) ≡ capacity words.old }
    ensures buckets { slice_index words.new 2 ≡ slice_index words.old 2 }
{
    forget(words);
    let mut d = m.depth;
    for _ in 0..m.count {
        let record = Record {
            words: work,
            depth: d,
        };
        let _stored = append(words, record.parts());
        d -= record.size();
    }
}
