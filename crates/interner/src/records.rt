// Records behind all else in the pool, and a table of their places: the layouts stand in specs/Records and specs/Places.
ghost use Rattle.std.specs.Prelude.{◌≡◌, ◌==◌, ◌+◌, ◌≤◌, length, slice_index};
ghost use Rattle.std.specs.List.{position};
ghost use Rattle.interner.specs.Index.{end, Sound};
ghost use Rattle.interner.specs.Places.{DropSays, Placed, entries};
ghost use Rattle.interner.specs.Records.{Recorded};

use crate::index::Sizes;
use crate::row::lay;

impl Sizes {
    // A record behind all else in the pool: its head, and then numbers, how many they are before them. Where it stands.
    pub fn append(self, words: &mut [u32], head: &[u32], ns: &[u32]) -> u32
        requires sound { Sound self.buckets self.cap words.old }
        requires room { end words.old + length head.now + 1 + length ns.now ≤ length words.old }
        ensures { Recorded self.buckets self.cap words.old head.now ns.now words.new result }
    {
        let from = words[1];
        let at = from as usize + head.len();
        words[from as usize..at].copy_from_slice(head);
        lay(words, at, ns);
        words[1] = (at + 1 + ns.len()) as u32;
        from
    }
}

// The places that stand in a table.
pub fn places(table: &[u32]) -> &[u32]
    requires { 1 + slice_index table.now 0 ≤ length table.now }
    ensures { result.now ≡ entries table.now }
{
    let n = table[0] as usize;
    &table[1..1 + n]
}

// Which record begins with this number: the first of them.
pub fn position_of(table: &[u32], words: &[u32], name: u32) -> Option<usize>
    requires { Placed table.now words.now }
    ensures { result ≡ position (λ p. slice_index words.now p == name) (entries table.now) }
{
    places(table)
        .iter()
        .position(|p| words[*p as usize] == name)
}

// The records that begin with this number leave the table; the others keep their order. A loop over places of the table: what stays is
// written into the table that is read.
pub fn drop_named(table: &mut [u32], words: &[u32], name: u32)
    requires { Placed table.old words.now }
    ensures { DropSays table.old words.now name table.new }
{
    let n = table[0] as usize;
    let mut j = 0;
    for k in 0..n {
        let p = table[1 + k];
        if words[p as usize] == name {
            continue;
        }
        table[1 + j] = p;
        j += 1;
    }
    table[0] = j as u32;
}
