// Records: one entry in words, written and read. The table of a record's words stands in specs/Record.
// A place is a depth: counted from the end of the row, so that it stays good while records are added in front.
ghost use Rattle.std.specs.Prelude.{◌≡◌, ◌+◌, ◌<◌, ◌≤◌, length, take, drop, slice_index};
ghost use Rattle.memo.specs.Record.{key_of, size, deep, puts, packed};
ghost use Rattle.memo.specs.Says.{PartsSays};

use crate::row::put;
use engine::key::{KEY_WORDS, Key};

// The words of a record before its answer: its key's three; the depth of the next older record of its bucket; how many words the answer has,
// how many questions it asked, and how many words the row of their answers has.
const KEY: usize = 0;

pub const OLDER: usize = 3;

pub const ANSWER: usize = 4;

pub const ASKED: usize = 5;

const ROW: usize = 6;

pub const HEAD: usize = 7;

// A record where it stands: at a depth of the row.
#[derive(Clone, Copy)]
pub struct Record<'a> {
    pub words: &'a [u32],
    pub depth: usize,
}

// A record's parts, where they stand. How many questions it asked stands beside their keys, as in the record.
#[derive(Clone, Copy)]
pub struct Parts<'a> {
    pub key: Key,
    pub ans: &'a [u32],
    pub count: usize,
    pub keys: &'a [u32],
    pub row: &'a [u32],
}

impl<'a> Record<'a> {
    // Its i-th word.
    pub fn word(self, i: usize) -> u32
        requires { (i < self.depth) × (self.depth ≤ length self.words.now) }
        ensures { result ≡ slice_index (deep self.entry.depth self.entry.words.now) i }
    {
        self.words[self.words.len() - self.depth + i]
    }

    // So many of its words, from the i-th on.
    pub fn part(self, i: usize, n: usize) -> &'a [u32]
        requires { (i + n ≤ self.depth) × (self.depth ≤ length self.words.now) }
        ensures { result.now ≡ take n (drop i (deep self.entry.depth self.entry.words.now)) }
    {
        let words = self.words;
        let p = words.len() - self.depth + i;
        &words[p..p + n]
    }

    // The key in its three words from the i-th on.
    pub(crate) fn key_at(self, i: usize) -> Key
        requires { (i + 3 ≤ self.depth) × (self.depth ≤ length self.words.now) }
        ensures { result ≡ key_of (drop i (deep self.entry.depth self.entry.words.now)) }
    {
        Key::from([self.word(i), self.word(i + 1), self.word(i + 2)])
    }

    // Its key.
    pub fn key(self) -> Key
        requires { (3 ≤ self.depth) × (self.depth ≤ length self.words.now) }
        ensures { result ≡ key_of (deep self.entry.depth self.entry.words.now) }
    {
        self.key_at(KEY)
    }

    // How many words it takes.
    pub fn size(self) -> usize
        requires { (7 ≤ self.depth) × (self.depth ≤ length self.words.now) }
        ensures { result ≡ size (deep self.entry.depth self.entry.words.now) }
    {
        HEAD + (self.word(ANSWER) as usize
            + (KEY_WORDS * self.word(ASKED) as usize + self.word(ROW) as usize))
    }

    // Its parts.
    pub fn parts(self) -> Parts<'a>
        requires { (size (deep self.depth self.words.now) ≤ self.depth) × (self.depth ≤ length self.words.now) }
        ensures { PartsSays (deep self.entry.depth self.entry.words.now) result.key result.ans.now result.count result.keys.now result.row.now }
    {
        let a = self.word(ANSWER) as usize;
        let count = self.word(ASKED) as usize;
        let n = self.word(ROW) as usize;
        Parts {
            key: self.key(),
            ans: self.part(HEAD, a),
            count,
            keys: self.part(HEAD + a, KEY_WORDS * count),
            row: self.part(HEAD + (a + KEY_WORDS * count), n),
        }
    }
}

impl Parts<'_> {
    // How many words they take as a record.
    pub(crate) fn size(self) -> usize
        requires { 7 + (length self.ans.now + (length self.keys.now + length self.row.now)) < 18446744073709551616 }
        ensures { result ≡ 7 + (length self.entry.ans.now + (length self.entry.keys.now + length self.entry.row.now)) }
    {
        HEAD + (self.ans.len() + (self.keys.len() + self.row.len()))
    }

    // They are written as a record, from a place on.
    pub fn write(self, words: &mut [u32], p: usize, prev: u32)
        requires { (p + (7 + (length self.ans.now + (length self.keys.now + length self.row.now))) ≤ length words.old) × (length words.old < 4294967296) × (self.count < 4294967296) }
        ensures { words.new ≡ puts p (packed self.entry.key prev self.entry.ans.now self.entry.count self.entry.keys.now self.entry.row.now) words.old }
    {
        let [kind, a, b] = <[u32; KEY_WORDS]>::from(self.key);
        let (ans, keys, row) = (self.ans, self.keys, self.row);
        let head = [
            kind,
            a,
            b,
            prev,
            ans.len() as u32,
            self.count as u32,
            row.len() as u32,
        ];
        put(words, p, &head);
        put(words, p + HEAD, ans);
        put(words, p + HEAD + ans.len(), keys);
        put(words, p + HEAD + ans.len() + keys.len(), row);
    }
}
