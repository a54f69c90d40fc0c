// The chain of a bucket: its records from the newest to the oldest, each pointing to the next.
ghost use Rattle.std.specs.Prelude.{◌≡◌, ℕ, ◌<◌, ◌≤◌, List, MatchOption};
ghost use Rattle.memo.specs.Log.{bucket, Fits, Record as Stands};
ghost use Rattle.memo.specs.Chain.{Chained, AlongSays};
ghost use Rattle.memo.specs.Says.{OldestSays, NewestSays};

use crate::index::Memo;
use crate::record::{OLDER, Record};
use engine::key::{Key, same_key};

// The bucket of a key.
pub fn bucket_of(k: &Key, buckets: usize) -> usize
    requires { 1 ≤ buckets }
    ensures is { result ≡ bucket k.now buckets }
    ensures below { result < buckets }
{
    (k.kind as usize * 31 + (k.a as usize * 8191 + k.b as usize)) % buckets
}

// The first record of a key along its chain, from a depth on.
pub(crate) fn along<'a>(words: &'a [u32], from: usize, k: &Key) -> Option<Record<'a>>
    requires { Fits words.now × (m : ℕ) × (l : List ℕ) × Chained words.now m l k.now from }
    ensures within { MatchOption result Unit (λ r. r.words.now ≡ words.now) }
    ensures is { (m : ℕ) (l : List ℕ) → Chained words.now m l k.now from → AlongSays words.now m l k.now result }
{
    let mut depth = from;
    while depth != 0 {
        let record = Record { words, depth };
        if same_key(&record.key(), k) {
            return Some(record);
        }
        depth = record.word(OLDER) as usize;
    }
    None
}

impl<'a> Record<'a> {
    // Whether it is the oldest of its key: the place of an entry among the others is that of its oldest record.
    pub fn is_oldest(self) -> bool
        requires { (Fits self.words.now) × (Stands self.words.now self.depth) }
        ensures { OldestSays self.entry.words.now self.entry.depth result }
    {
        along(self.words, self.word(OLDER) as usize, &self.key()).is_none()
    }

    // The newest record of its key: what the entry is.
    pub fn newest(self) -> Record<'a>
        requires { (Fits self.words.now) × (Stands self.words.now self.depth) }
        ensures within { result.words.now ≡ self.entry.words.now }
        ensures is { NewestSays self.entry.words.now self.entry.depth result.depth }
    {
        let memo = Memo { words: self.words };
        memo.find(&self.key()).unwrap_or(self)
    }
}
