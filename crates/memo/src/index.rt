// The memo read: how much room it has, and the entry of a key.
ghost use Rattle.std.specs.Prelude.{◌≡◌, length, MatchOption, slice_index};
ghost use Rattle.std.proofs.Math.Option.{some, none};
ghost use Rattle.engine.specs.Engine.{find as newest};
ghost use Rattle.memo.specs.Log.{Fits, kept_entries, Record as Stands, entry_at, spare, capacity};

use crate::chain::{along, bucket_of};
use crate::record::Record;
use crate::row::{BUCKETS, HEADS, LOG};
use engine::key::Key;

// A memo, to read from.
#[derive(Clone, Copy)]
pub struct Memo<'a> {
    pub words: &'a [u32],
}

impl<'a> Memo<'a> {
    // How many words there are for records in all.
    pub fn capacity(self) -> usize
        requires { Fits self.words.now }
        ensures { result ≡ capacity self.entry.words.now }
    {
        self.words.len() - (HEADS + self.words[BUCKETS] as usize)
    }

    // How many of them are free.
    pub fn spare(self) -> usize
        requires { Fits self.words.now }
        ensures { result ≡ spare self.entry.words.now }
    {
        self.words.len() - (HEADS + self.words[BUCKETS] as usize + self.words[LOG] as usize)
    }

    // Where the newest record of a key stands, if it has an entry.
    pub fn find(self, k: &Key) -> Option<Record<'a>>
        requires { Fits self.words.now }
        ensures within { MatchOption result Unit (λ r. r.words.now ≡ self.entry.words.now) }
        ensures is { MatchOption result (newest (kept_entries self.entry.words.now) k.now ≡ none) (λ r. Stands self.entry.words.now r.depth × (newest (kept_entries self.entry.words.now) k.now ≡ some (entry_at self.entry.words.now r.depth))) }
    {
        let b = bucket_of(k, self.words[BUCKETS] as usize);
        along(self.words, self.words[HEADS + b] as usize, k)
    }
}
