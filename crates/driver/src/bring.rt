// A key brought up to date, in one lent row of words.
ghost use Rattle.std.specs.Prelude.{◌≡◌, ℕ, ◌+◌, ◌<◌, ◌≤◌, true, length, take, drop};
ghost use Rattle.engine.specs.Says.{kept, BringSays};
ghost use Rattle.engine.specs.Theorems.{Falls, Honest};
ghost use Rattle.memo.specs.Log.{kept_entries};
ghost use Rattle.memo.specs.Whether.{memo_ready};

use crate::state::Desk;
use engine::key::Key;
use engine::rules::{Inputs, Rules};

// A key's answer, brought up to date, for any rules: it can be had from the rules alone, and they count. In the lent words stand what
// inputs are read from, up to known; entries, up to memo; and behind that there's room to work in, at whose front the answer stands. None
// only if one of the rows is too short, and then the entries are as they were. What is kept stays honest, and rules are told no more often
// than there are words, so that a caller may ask again.
pub fn bring<R: Rules, I: Inputs>(
    mem: &mut [u32],
    known: usize,
    memo: usize,
    rules: &mut R,
    inputs: &I,
    k: &Key,
) -> Option<usize>
    requires row { (known ≤ memo) × (memo ≤ length mem.old) × (length mem.old < 4294967296) × (memo_ready (drop known (take memo mem.old)) ≡ true) }
    requires falls { Falls (R.Rules.book rules.old) }
    requires honest { Honest (R.Rules.book rules.old) (kept (kept_entries (drop known (take memo mem.old)))) }
    requires runs1 { R.Rules.runs rules.old < 4611686018427387904 }
    ensures book1 { R.Rules.book rules.new ≡ R.Rules.book rules.old }
    ensures row { (length mem.new ≡ length mem.old) × (memo_ready (drop known (take memo mem.new)) ≡ true) }
    ensures before { take known mem.new ≡ take known mem.old }
    ensures honest { Honest (R.Rules.book rules.new) (kept (kept_entries (drop known (take memo mem.new)))) }
    ensures runs1 { R.Rules.runs rules.new ≤ R.Rules.runs rules.old + length mem.old }
    ensures says { BringSays (R.Rules.book rules.old) (I.Inputs.given inputs.now (take known mem.old)) k.now (kept_entries (drop known (take memo mem.old))) (kept_entries (drop known (take memo mem.new))) (R.Rules.runs rules.old) (R.Rules.runs rules.new) (length (drop known (take memo mem.old))) (length (drop memo mem.old)) (drop memo mem.old) (drop memo mem.new) result }
{
    if rules.is_input(k) {
        return inputs.get(k, mem, known, memo);
    }
    let desk = Desk {
        known,
        memo,
        rows: 0,
        frames: 0,
    };
    desk.tidy(mem).ok()?;
    desk.run(mem, rules, inputs, k).ok()
}
