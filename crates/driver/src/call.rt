// A key that is to be brought.
ghost use Rattle.std.specs.Prelude.{take};
ghost use Rattle.driver.specs.Doing.{Area, CallSays, HandSays};

use crate::state::{At, Desk, Now};
use engine::key::Key;
use engine::rules::Inputs;
use memo::log::NoRoom;

impl Desk {
    // A key that is no input: its entry is looked at, or else it is worked out.
    pub fn call_kept(self, mem: &mut [u32], k: &Key) -> Result<At, NoRoom>
        requires { Area mem.old self }
        ensures { CallSays self k.now mem.old mem.new result }
    {
        let Some(record) = self.kept(mem).find(k) else {
            return Ok(self.start(k));
        };
        let (depth, here) = (record.depth, record.first());
        self.look(mem, k, depth, here)
    }

    // An input: its answer is handed on.
    pub fn call_input<I: Inputs>(self, mem: &mut [u32], inputs: &I, k: &Key) -> Result<At, NoRoom>
        requires { Area mem.old self }
        ensures { HandSays self (I.Inputs.given inputs.now (take self.known mem.old) k.now) mem.old mem.new result }
    {
        if self.room(mem) < 1 {
            return Err(NoRoom);
        }
        let end = mem.len() - self.frames;
        let n = inputs
            .get(k, &mut mem[..end], self.known, self.memo + (self.rows + 1))
            .ok_or(NoRoom)?;
        Ok(self.at(Now::Back(n)))
    }
}
