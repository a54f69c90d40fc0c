// An answer that comes back to the newest frame.
ghost use Rattle.std.specs.Prelude.{◌≡◌, ℕ, ◌+◌, ◌-◌, ◌<◌, ◌≤◌, List, [], ◌∷◌, ◌++◌, length, drop};
ghost use Rattle.engine.specs.Engine.{Ans, Kept, Got};
ghost use Rattle.engine.specs.declared.key.Key.{Key};
ghost use Rattle.engine.specs.Machine.{Frame, works, State, back, backed};
ghost use Rattle.memo.specs.Record.{deep};
ghost use Rattle.memo.specs.Log.{entry_at};
ghost use Rattle.memo.specs.Says.{Looks};
ghost use Rattle.driver.specs.Rows.{look_words};
ghost use Rattle.driver.specs.Says.{memo_in, HeadSays};
ghost use Rattle.driver.specs.Doing.{Doing, Area, BackSays, ReturnSays};

use crate::stack::{HEAD_WORDS, Head, add_answer};
use crate::state::{At, Desk, Now, Told};
use engine::key::Key;
use memo::entry::Cursor;
use memo::log::NoRoom;

// An answer of n words comes back to the frame of a rule that works, the newest of f words of frames behind r words of rows: it is the
// row's next, and the rule is told.
pub fn back_work(work: &mut [u32], r: usize, f: usize, n: usize, told: Told) -> At
    requires room { (r + 1 + n + f ≤ length work.old) × (7 ≤ f) × (length work.old < 4294967296) × (told.count < 4294967296) }
    requires reads { HeadSays (Head.Works told) (deep f work.old) (deep (f - 7) work.old) }
    ensures room { result.rows + result.frames ≤ length work.old }
    ensures says { (ms : List ℕ) (m : Kept) (a : List ℕ) (k : Key) (gs : List Got) (q : Key) (st : List Frame) → Doing ms work.old r f (Now.Back n) (back m a (works k gs q ∷ st)) → Doing ms work.new result.rows result.frames result.now (backed m a (works k gs q ∷ st)) }
{
    add_answer(work, r, n);
    At {
        rows: r + (1 + n),
        frames: f - HEAD_WORDS,
        now: Now::Tell(Told {
            key: told.key,
            count: told.count + 1,
            from: told.from,
        }),
    }
}

impl Desk {
    // An answer of n words comes back to a frame that looks: if it is the one that the entry got, the entry is looked at further, else its key
    // is worked out.
    pub fn back_look(
        self,
        mem: &mut [u32],
        n: usize,
        k: &Key,
        depth: usize,
        here: Cursor,
    ) -> Result<At, NoRoom>
        requires area { Area mem.old self }
        requires room { (self.memo + (self.rows + (1 + (n + self.frames))) ≤ length mem.old) × (7 ≤ self.frames) }
        requires reads { deep self.frames (drop self.memo mem.old) ≡ look_words k.now depth here.index here.place (deep (self.frames - 7) (drop self.memo mem.old)) }
        requires looks { (Looks (memo_in self.known self.memo mem.old) depth here.index here.place) × (here.index < length (entry_at (memo_in self.known self.memo mem.old) depth).gots) }
        ensures { BackSays self n mem.old mem.new result }
    {
        let below = Desk {
            frames: self.frames - HEAD_WORDS,
            ..self
        };
        let Some(next) = self.compare(mem, depth, here, n) else {
            return Ok(below.start(k));
        };
        below.look(mem, k, depth, next)
    }

    // An answer of n words comes back to the newest frame.
    pub fn back_frame(self, mem: &mut [u32], n: usize) -> Result<At, NoRoom>
        requires area { Area mem.old self }
        requires there { (m : Kept) × (a : Ans) × (fr : Frame) × (st : List Frame) × Doing (memo_in self.known self.memo mem.old) (drop self.memo mem.old) self.rows self.frames (Now.Back n) (back m a (fr ∷ st)) }
        ensures { ReturnSays self n mem.old mem.new result }
    {
        match Head::newest(&mem[self.memo..], self.frames) {
            Head::Looks { key, depth, here } => self.back_look(mem, n, &key, depth, here),
            Head::Works(told) => Ok(back_work(
                &mut mem[self.memo..],
                self.rows,
                self.frames,
                n,
                told,
            )),
        }
    }
}
