// From the memo to the work area and back.
ghost use Rattle.std.specs.Prelude.{◌≡◌, ℕ, ◌+◌, ◌<◌, ◌≤◌, length, take, drop};
ghost use Rattle.memo.specs.Record.{deep};
ghost use Rattle.memo.specs.Log.{Record as Stands, entry_at};
ghost use Rattle.memo.specs.Says.{Looks};
ghost use Rattle.driver.specs.Says.{memo_in, CopySays, CompareSays};
ghost use Rattle.driver.specs.Doing.{Area};

use crate::state::Desk;
use base::same_word;
use memo::entry::Cursor;
use memo::log::NoRoom;
use memo::record::Record;

impl Desk {
    // The answer of the entry at a depth, copied one word behind the newest row, if it goes in before the frames.
    pub fn copy_answer(self, mem: &mut [u32], depth: usize) -> Result<usize, NoRoom>
        requires area { Area mem.old self }
        requires room { self.memo + (self.rows + (1 + self.frames)) ≤ length mem.old }
        requires record1 { Stands (memo_in self.known self.memo mem.old) depth }
        ensures { CopySays self (entry_at (memo_in self.known self.memo mem.old) depth).ans mem.old mem.new result }
    {
        let (front, work) = mem.split_at_mut(self.memo);
        let record = Record {
            words: &front[self.known..],
            depth,
        };
        let answer = record.answer();
        let n = answer.len();
        let t = self.rows + 1;
        if work.len() - (t + self.frames) < n {
            return Err(NoRoom);
        }
        work[t..t + n].copy_from_slice(answer);
        Ok(n)
    }

    // Where a reader of an entry's questions goes on, if the answer of n words, one word behind the newest row, is the one that the entry got
    // here.
    pub fn compare(self, mem: &[u32], depth: usize, here: Cursor, n: usize) -> Option<Cursor>
        requires area { Area mem.now self }
        requires room { self.memo + (self.rows + 1) + n ≤ length mem.now }
        requires looks { (Looks (memo_in self.known self.memo mem.now) depth here.index here.place) × (here.index < length (entry_at (memo_in self.known self.memo mem.now) depth).gots) }
        ensures { CompareSays (memo_in self.known self.memo mem.now) depth here.index (take n (drop (self.memo + (self.rows + 1)) mem.now)) result }
    {
        let record = Record {
            words: self.kept(mem).words,
            depth,
        };
        let got = record.got(here);
        let t = self.memo + (self.rows + 1);
        same_word(&mem[t..t + n], got.ans).then_some(got.next)
    }
}
