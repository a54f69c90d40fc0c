// A key's entry looked at: its next question is brought, or all of them are as they were, and its answer stands.
ghost use Rattle.memo.specs.Says.{Looks};
ghost use Rattle.driver.specs.Says.{memo_in};
ghost use Rattle.driver.specs.Doing.{Area, LookSays};

use crate::stack::{HEAD_WORDS, Head, push_head};
use crate::state::{At, Desk, Now};
use engine::key::Key;
use memo::entry::Cursor;
use memo::log::NoRoom;
use memo::record::Record;

impl Desk {
    // The entry at a depth, from a question on. Inlined, as most turns are such looks.
    #[inline(always)]
    pub fn look(self, mem: &mut [u32], k: &Key, depth: usize, here: Cursor) -> Result<At, NoRoom>
        requires area { Area mem.old self }
        requires looks { Looks (memo_in self.known self.memo mem.old) depth here.index here.place }
        ensures { LookSays self k.now depth here.index mem.old mem.new result }
    {
        if self.room(mem) < HEAD_WORDS {
            return Err(NoRoom);
        }
        let record = Record {
            words: self.kept(mem).words,
            depth,
        };
        if here.index < record.asked() {
            let key = record.got(here).key;
            let head = Head::Looks {
                key: *k,
                depth,
                here,
            };
            push_head(&mut mem[self.memo..], self.frames, head);
            return Ok(At {
                rows: self.rows,
                frames: self.frames + HEAD_WORDS,
                now: Now::Call(key),
            });
        }
        let n = self.copy_answer(mem, depth)?;
        Ok(self.at(Now::Back(n)))
    }
}
