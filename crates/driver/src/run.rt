// The loop over turns.
ghost use Rattle.std.specs.Prelude.{◌≡◌, ℕ, ◌+◌, ◌<◌, ◌≤◌, false, length, take, drop, slice_index};
ghost use Rattle.engine.specs.Engine.{Rules as RuleBook};
ghost use Rattle.engine.specs.Says.{kept};
ghost use Rattle.engine.specs.Theorems.{Falls, Honest};
ghost use Rattle.memo.specs.Log.{Fits, kept_entries, spare};
ghost use Rattle.driver.specs.Says.{memo_in};
ghost use Rattle.driver.specs.Doing.{Area, desk};
ghost use Rattle.driver.specs.Bringing.{RunSays, EndSays};

use crate::stack::settle;
use crate::state::{At, Desk, Now};
use engine::key::Key;
use engine::rules::{Inputs, Rules};
use memo::log::NoRoom;
use memo::mark::{roll_back, take_mark};

impl At {
    // How long the answer is, if one is there and no frame waits for it.
    fn ended(self) -> Option<usize>
        ensures { EndSays self result }
    {
        match self.now {
            Now::Back(n) if self.frames == 0 => Some(n),
            _ => None,
        }
    }
}

impl Desk {
    // A key that is no input, brought up to date, with no rows and no frames yet: turn after turn, until its answer is there or there is too
    // little room, and then the memo goes back to what it was.
    pub fn run<R: Rules, I: Inputs>(
        self,
        mem: &mut [u32],
        rules: &mut R,
        inputs: &I,
        k: &Key,
    ) -> Result<usize, NoRoom>
        requires area { Area mem.old self }
        requires empty { (self.rows ≡ 0) × (self.frames ≡ 0) }
        requires falls { Falls (R.Rules.book rules.old) }
        requires honest { Honest (R.Rules.book rules.old) (kept (kept_entries (memo_in self.known self.memo mem.old))) }
        requires inner { RuleBook.input (R.Rules.book rules.old) k.now ≡ false }
        requires runs1 { R.Rules.runs rules.old < 4611686018427387904 }
        ensures book1 { R.Rules.book rules.new ≡ R.Rules.book rules.old }
        ensures fits { Fits (memo_in self.known self.memo mem.new) }
        ensures before { take self.known mem.new ≡ take self.known mem.old }
        ensures buckets { slice_index (memo_in self.known self.memo mem.new) 2 ≡ slice_index (memo_in self.known self.memo mem.old) 2 }
        ensures runs1 { R.Rules.runs rules.new ≤ R.Rules.runs rules.old + length mem.old }
        ensures says { RunSays (R.Rules.book rules.old) (I.Inputs.given inputs.now (take self.known mem.old)) k.now (kept_entries (memo_in self.known self.memo mem.old)) (kept_entries (memo_in self.known self.memo mem.new)) (R.Rules.runs rules.old) (R.Rules.runs rules.new) (spare (memo_in self.known self.memo mem.old)) (length (drop self.memo mem.old)) (drop self.memo mem.new) result }
    {
        let mark = take_mark(self.kept(mem).words);
        let mut at = At {
            rows: 0,
            frames: 0,
            now: Now::Call(*k),
        };
        loop {
            if let Some(n) = at.ended() {
                settle(&mut mem[self.memo..], at.rows + 1, 0, n);
                return Ok(n);
            }
            let desk = Desk {
                rows: at.rows,
                frames: at.frames,
                ..self
            };
            match desk.turn(mem, rules, inputs, at.now) {
                Ok(next) => at = next,
                Err(e) => {
                    roll_back(&mut mem[self.known..self.memo], mark);
                    return Err(e);
                }
            }
        }
    }
}
