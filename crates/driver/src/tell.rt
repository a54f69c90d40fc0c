// A rule that is told what it got: it asks, or it is done.
ghost use Rattle.std.specs.Prelude.{◌≡◌, ℕ, ◌+◌, ◌-◌, ◌*◌, ◌<◌, ◌≤◌, List, length, take, drop};
ghost use Rattle.engine.specs.Engine.{Rules as RuleBook, Got, Kept, answers};
ghost use Rattle.engine.specs.Machine.{Frame, tell};
ghost use Rattle.engine.specs.Says.{row};
ghost use Rattle.memo.specs.Log.{Fits};
ghost use Rattle.memo.specs.Record.{deep, made};
ghost use Rattle.driver.specs.Rows.{stacked};
ghost use Rattle.driver.specs.Says.{memo_in, StoredSays};
ghost use Rattle.driver.specs.Doing.{Doing, Area, AskSays, DoneSays, RuleSays, TellSays};

use crate::stack::{WORK_WORDS, push_work, put_in_order, settle};
use crate::state::{At, Desk, Now, Told};
use engine::key::{KEY_WORDS, Key};
use engine::rules::{Rules, Turn};
use memo::log::{NoRoom, append};
use memo::record::Parts;

// The entry of a rule that is done stored in the memo, if there is room: in the work area its row ends at r, the answer of n words stands
// behind it, and the keys that it asked in front of the last f words.
fn store(
    memo: &mut [u32],
    work: &mut [u32],
    told: Told,
    r: usize,
    f: usize,
    n: usize,
) -> Result<(), NoRoom>
    requires inside { (told.from ≤ r) × (r + n + f ≤ length work.old) × (3 * told.count ≤ f) }
    requires small { (length memo.old < 4294967296) × (length work.old < 4294967296) }
    requires fits { Fits memo.old }
    requires told { (gs : List Got) × (us : List ℕ) × (deep f work.old ≡ stacked gs us) × (length gs ≡ told.count) × (take (r - told.from) (drop told.from work.old) ≡ row (answers gs)) }
    ensures work { (take (length work.old - f) work.new ≡ take (length work.old - f) work.old) × (deep (f - 3 * told.count) work.new ≡ deep (f - 3 * told.count) work.old) }
    ensures says { (gs : List Got) (us : List ℕ) → deep f work.old ≡ stacked gs us → length gs ≡ told.count → take (r - told.from) (drop told.from work.old) ≡ row (answers gs) → StoredSays (made told.key (take n (drop r work.old)) gs) memo.old memo.new result }
{
    let h = work.len() - f;
    put_in_order(&mut work[h..h + KEY_WORDS * told.count], told.count);
    append(
        memo,
        Parts {
            key: told.key,
            ans: &work[r..r + n],
            count: told.count,
            keys: &work[h..h + KEY_WORDS * told.count],
            row: &work[told.from..r],
        },
    )
}

impl Desk {
    // The rule asks q.
    pub fn ask(self, mem: &mut [u32], told: Told, q: &Key) -> Result<At, NoRoom>
        requires area { Area mem.old self }
        requires row { (told.from ≤ self.rows) × (3 * told.count ≤ self.frames) }
        ensures { AskSays self told q.now mem.old mem.new result }
    {
        if self.room(mem) < WORK_WORDS {
            return Err(NoRoom);
        }
        push_work(&mut mem[self.memo..], self.frames, told, q);
        Ok(At {
            rows: self.rows,
            frames: self.frames + WORK_WORDS,
            now: Now::Call(*q),
        })
    }

    // The rule is done, with an answer of n words behind its row.
    pub fn done(self, mem: &mut [u32], told: Told, n: usize) -> Result<At, NoRoom>
        requires area { Area mem.old self }
        requires row { (told.from ≤ self.rows) × (3 * told.count ≤ self.frames) × (self.memo + (self.rows + (n + self.frames)) ≤ length mem.old) }
        requires told { (m : Kept) × (gs : List Got) × (st : List Frame) × Doing (memo_in self.known self.memo mem.old) (drop self.memo mem.old) self.rows self.frames (Now.Tell told) (tell m told.key gs st) }
        ensures { DoneSays self told n mem.old mem.new result }
    {
        if mem.len() - (self.memo + (told.from + self.frames)) < 1 + n {
            return Err(NoRoom);
        }
        let (front, work) = mem.split_at_mut(self.memo);
        store(
            &mut front[self.known..],
            work,
            told,
            self.rows,
            self.frames,
            n,
        )?;
        settle(work, self.rows, told.from + 1, n);
        Ok(At {
            rows: told.from,
            frames: self.frames - KEY_WORDS * told.count,
            now: Now::Back(n),
        })
    }

    // The rule is told the answers in its row.
    pub fn go<R: Rules>(self, mem: &mut [u32], rules: &mut R, told: Told) -> Turn
        requires runs1 { R.Rules.runs rules.old < 9223372036854775808 }
        requires row { (told.from ≤ self.rows) × (self.memo + (self.rows + self.frames) ≤ length mem.old) }
        ensures book1 { R.Rules.book rules.new ≡ R.Rules.book rules.old }
        ensures runs1 { R.Rules.runs rules.new ≡ R.Rules.runs rules.old + 1 }
        ensures before { take (self.memo + self.rows) mem.new ≡ take (self.memo + self.rows) mem.old }
        ensures behind { deep self.frames mem.new ≡ deep self.frames mem.old }
        ensures says { (gs : List Got) → length gs ≡ told.count → take (self.rows - told.from) (drop (self.memo + told.from) mem.old) ≡ row (answers gs) → RuleSays (RuleBook.next (R.Rules.book rules.old) told.key (answers gs)) self told.from mem.old mem.new result }
    {
        let end = mem.len() - self.frames;
        let row = &mut mem[self.memo + told.from..end];
        rules.go(&told.key, row, self.rows - told.from, told.count)
    }

    // The rule is told what it got, and asks or is done.
    pub fn tell_rule<R: Rules>(
        self,
        mem: &mut [u32],
        rules: &mut R,
        told: Told,
    ) -> Result<At, NoRoom>
        requires area { Area mem.old self }
        requires runs1 { R.Rules.runs rules.old < 9223372036854775808 }
        requires row { (told.from ≤ self.rows) × (3 * told.count ≤ self.frames) }
        requires told { (m : Kept) × (gs : List Got) × (st : List Frame) × Doing (memo_in self.known self.memo mem.old) (drop self.memo mem.old) self.rows self.frames (Now.Tell told) (tell m told.key gs st) }
        ensures book1 { R.Rules.book rules.new ≡ R.Rules.book rules.old }
        ensures runs1 { R.Rules.runs rules.new ≡ R.Rules.runs rules.old + 1 }
        ensures says { TellSays (R.Rules.book rules.old) self told mem.old mem.new result }
    {
        match self.go(mem, rules, told) {
            Turn::Ask(q) => self.ask(mem, told, &q),
            Turn::Done(n) => self.done(mem, told, n),
            Turn::Narrow => Err(NoRoom),
        }
    }
}
