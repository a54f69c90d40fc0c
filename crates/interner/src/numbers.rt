// Numbers for bytes, also where all were given out once and some are free again, and a text as the numbers of its lines.
ghost use Rattle.interner.specs.Index.{Sound};
ghost use Rattle.interner.specs.Numbers.{FreeSays, InternSays, NextSays, NumberSays};

use crate::index::Sizes;
use crate::refused::NoRoom;
use lexer::lines::line_end;

impl Sizes {
    // Numbers for the lines of a text, written to the front of `out`; none where there is no room: then some of the lines may have got numbers.
    pub fn number_lines(
        self,
        words: &mut [u32],
        text: &[u32],
        out: &mut [u32],
    ) -> Result<usize, NoRoom>
        requires { Sound self.buckets self.cap words.old }
        ensures { NumberSays self.buckets self.cap words.old text.now words.new out.new result }
    {
        let mut from = 0;
        let mut k = 0;
        'lines: loop {
            let to = line_end(text, from);
            if k >= out.len() {
                return Err(NoRoom);
            }
            let n = self.intern(words, &text[from..to])?;
            out[k] = n;
            k += 1;
            if to == text.len() {
                return Ok(k);
            }
            from = to + 1;
        }
    }

    // The number of these bytes, a new one if they have none; or none, where there is no number or no room left.
    pub fn intern(self, words: &mut [u32], key: &[u32]) -> Result<u32, NoRoom>
        requires { Sound self.buckets self.cap words.old }
        ensures { InternSays self.buckets self.cap words.old key.now words.new result }
    {
        let b = self.bucket_of(key);
        if let Some(n) = self.find_in(words, b, key) {
            return Ok(n);
        }
        let n = self.next_number(words);
        if n as usize >= self.cap || words.len() - (words[1] as usize) < 1 + key.len() {
            return Err(NoRoom);
        }
        self.add_in(words, b, n, key);
        Ok(n)
    }

    // A number for new bytes: the next, and once there are as many as there can be, one that is free.
    fn next_number(self, words: &[u32]) -> u32
        requires { Sound self.buckets self.cap words.now }
        ensures { NextSays self.buckets self.cap words.now result }
    {
        let count = words[0];
        if (count as usize) < self.cap {
            return count;
        }
        self.free_number(words).unwrap_or(count)
    }

    // The first number that is free, if there is one.
    fn free_number(self, words: &[u32]) -> Option<u32>
        requires { Sound self.buckets self.cap words.now }
        ensures { FreeSays self.buckets words.now result }
    {
        for n in 1..words[0] {
            if self.place_of(words, n as usize) == 0 {
                return Some(n);
            }
        }
        None
    }
}
