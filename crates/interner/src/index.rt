// Numbers for rows of bytes, the same bytes the same number: to find one by its hash, to add one.
ghost use Rattle.std.specs.Prelude.{◌≡◌, ◌+◌, ◌*◌, ◌%◌, ◌<◌, ◌≤◌, length, Decides, slice_index};
ghost use Rattle.interner.specs.Index.{bytes_at, count, end, entered, hash_from, head, link, place, Sound};
ghost use Rattle.interner.specs.Interner.{Added, Blank, CanAdd, FindSays, Interned};

use crate::row::{bytes_from, lay};

// How many buckets a row has, and how many numbers at most: with these its words can be read and written.
#[derive(Clone, Copy)]
pub struct Sizes {
    pub buckets: usize,
    pub cap: usize,
}

impl Sizes {
    // A row in which no number is used yet, of so many.
    pub fn clear(self, words: &mut [u32], total: u32)
        requires { (0 < self.buckets) × ((0 < total) × ((total ≤ self.cap) × ((2 + self.buckets + 2 * self.cap ≤ length words.old) × (length words.old < 4294967296)))) }
        ensures { Blank self.buckets self.cap total words.new }
    {
        words[..2 + self.buckets + 2 * total as usize].fill(0);
        words[0] = total;
        words[1] = (2 + self.buckets + 2 * self.cap) as u32;
    }

    // The number of these bytes, if they have one.
    pub fn find(self, words: &[u32], key: &[u32]) -> Option<u32>
        requires { Sound self.buckets self.cap words.now }
        ensures { FindSays self.buckets words.now key.now result }
    {
        self.find_in(words, self.bucket_of(key), key)
    }

    // The number of these bytes, which belong into this bucket, if they have one.
    pub(crate) fn find_in(self, words: &[u32], b: usize, key: &[u32]) -> Option<u32>
        requires sound { Sound self.buckets self.cap words.now }
        requires bucket { b ≡ hash_from 0 key.now % self.buckets }
        ensures { FindSays self.buckets words.now key.now result }
    {
        let mut n = head_of(words, b);
        'chain: loop {
            let p = self.place_of(words, n);
            if p == 0 {
                return None;
            }
            if same_at(words, p, key) {
                return Some(n as u32);
            }
            n = self.link_of(words, n);
        }
    }

    // The number of these bytes, the next one if they have none: there is room for them, and a number.
    pub fn number(self, words: &mut [u32], key: &[u32]) -> u32
        requires sound { Sound self.buckets self.cap words.old }
        requires number { count words.old < self.cap }
        requires room { end words.old + 1 + length key.now ≤ length words.old }
        ensures { Interned self.buckets self.cap words.old key.now words.new result }
    {
        let b = self.bucket_of(key);
        if let Some(n) = self.find_in(words, b, key) {
            return n;
        }
        let n = words[0];
        self.add_in(words, b, n, key);
        n
    }

    // A number, free or the next, gets bytes that no other has.
    pub fn add(self, words: &mut [u32], n: u32, key: &[u32])
        requires { CanAdd self.buckets self.cap words.old n key.now }
        ensures { Added self.buckets self.cap words.old n key.now words.new }
    {
        self.add_in(words, self.bucket_of(key), n, key);
    }

    // A number, free or the next, gets bytes that no other has, and that belong into this bucket.
    pub(crate) fn add_in(self, words: &mut [u32], b: usize, n: u32, key: &[u32])
        requires new { CanAdd self.buckets self.cap words.old n key.now }
        requires bucket { b ≡ hash_from 0 key.now % self.buckets }
        ensures { Added self.buckets self.cap words.old n key.now words.new }
    {
        let count = if n < words[0] { words[0] } else { n + 1 };
        let from = words[1];
        let to = from + 1 + key.len() as u32;
        lay(words, from as usize, key);
        self.enter(words, b, n, from, to, count);
    }

    // Where a number's bytes stand, 0 if it is free.
    pub fn place_of(self, words: &[u32], n: usize) -> usize
        requires { 2 + self.buckets + 2 * n + 1 < length words.now }
        ensures { result ≡ place self.buckets words.now n }
    {
        words[2 + self.buckets + 2 * n] as usize
    }

    // The next older number of its bucket.
    fn link_of(self, words: &[u32], n: usize) -> usize
        requires { 2 + self.buckets + 2 * n + 1 < length words.now }
        ensures { result ≡ link self.buckets words.now n }
    {
        words[2 + self.buckets + 2 * n + 1] as usize
    }

    // The bucket into which bytes belong.
    pub fn bucket_of(self, key: &[u32]) -> usize
        requires { 0 < self.buckets }
        ensures { result ≡ hash_from 0 key.now % self.buckets }
    {
        hash(key) as usize % self.buckets
    }

    // Writes a number's row, the head of its chain, where the pool ends, and how many numbers there are.
    fn enter(self, words: &mut [u32], b: usize, n: u32, from: u32, to: u32, total: u32)
        requires { (b < self.buckets) × (2 + self.buckets + 2 * n + 1 < length words.old) }
        ensures { words.new ≡ entered self.buckets b n from to total words.old }
    {
        let row = 2 + self.buckets + 2 * n as usize;
        let next = words[2 + b];
        words[row] = from;
        words[row + 1] = next;
        words[2 + b] = n;
        words[1] = to;
        words[0] = total;
    }
}

// The number that a bucket was given last.
fn head_of(words: &[u32], b: usize) -> usize
    requires { 2 + b < length words.now }
    ensures { result ≡ head words.now b }
{
    words[2 + b] as usize
}

// A number for a row of words, the same for the same words.
fn hash(key: &[u32]) -> u32
    ensures { result ≡ hash_from 0 key.now }
{
    key.iter().fold(
        0,
        |h: u32, c| ((u64::from(h) * 31 + u64::from(*c)) % 16777213) as u32,
    )
}

// Whether the bytes at a place of the pool are these.
fn same_at(words: &[u32], i: usize, key: &[u32]) -> bool
    requires { i + 1 + slice_index words.now i ≤ length words.now }
    ensures { Decides result (bytes_at words.now i ≡ key.now) }
{
    bytes_from(words, i) == key
}
