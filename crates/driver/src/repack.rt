// The memo made ready for a bringing. It happens between bringings only.
ghost use Rattle.std.specs.Prelude.{◌≡◌, length, take, drop, slice_index};
ghost use Rattle.memo.specs.Log.{Fits};
ghost use Rattle.driver.specs.Says.{memo_in};
ghost use Rattle.driver.specs.Doing.{Area};
ghost use Rattle.driver.specs.Bringing.{TidySays};

use crate::state::Desk;
use memo::log::NoRoom;
use memo::repack::repack;

impl Desk {
    // As long as half of the memo's room is free it stays as it is, else it is repacked through the work area.
    pub fn tidy(self, mem: &mut [u32]) -> Result<(), NoRoom>
        requires { Area mem.old self }
        ensures fits { Fits (memo_in self.known self.memo mem.new) }
        ensures before { take self.known mem.new ≡ take self.known mem.old }
        ensures says { TidySays (memo_in self.known self.memo mem.old) (memo_in self.known self.memo mem.new) (length (drop self.memo mem.old)) result }
        ensures buckets { slice_index (memo_in self.known self.memo mem.new) 2 ≡ slice_index (memo_in self.known self.memo mem.old) 2 }
    {
        let kept = self.kept(mem);
        let room = kept.capacity();
        let used = room - kept.spare();
        if room >= 2 * used {
            return Ok(());
        }
        let (front, work) = mem.split_at_mut(self.memo);
        repack(&mut front[self.known..], work)
    }
}
