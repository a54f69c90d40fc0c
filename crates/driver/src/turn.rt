// One turn of the machine, whatever is next.
ghost use Rattle.std.specs.Prelude.{◌≡◌, ℕ, ◌+◌, ◌<◌, take, drop};
ghost use Rattle.engine.specs.Machine.{State, Busy};
ghost use Rattle.driver.specs.Says.{memo_in};
ghost use Rattle.driver.specs.Doing.{Doing, Area};
ghost use Rattle.driver.specs.Turns.{tellings, TurnSays};

use crate::state::{At, Desk, Now};
use engine::rules::{Inputs, Rules};
use memo::log::NoRoom;

impl Desk {
    // The next turn, from where the machine stands; or there was too little room for it. A rule is told at most once.
    pub fn turn<R: Rules, I: Inputs>(
        self,
        mem: &mut [u32],
        rules: &mut R,
        inputs: &I,
        now: Now,
    ) -> Result<At, NoRoom>
        requires area { Area mem.old self }
        requires runs1 { R.Rules.runs rules.old < 9223372036854775808 }
        requires there { (c : State) × Busy c × Doing (memo_in self.known self.memo mem.old) (drop self.memo mem.old) self.rows self.frames now c }
        ensures book1 { R.Rules.book rules.new ≡ R.Rules.book rules.old }
        ensures runs1 { R.Rules.runs rules.new ≡ R.Rules.runs rules.old + tellings now }
        ensures says { TurnSays (R.Rules.book rules.old) (I.Inputs.given inputs.now (take self.known mem.old)) self now mem.old mem.new result }
    {
        match now {
            Now::Call(k) => {
                if rules.is_input(&k) {
                    return self.call_input(mem, inputs, &k);
                }
                self.call_kept(mem, &k)
            }
            Now::Back(n) => self.back_frame(mem, n),
            Now::Tell(told) => self.tell_rule(mem, rules, told),
        }
    }
}
