// The stack's words in the work area: frames from its end downwards, rows from its front upwards. The table stands in specs/Rows.
ghost use Rattle.std.specs.Prelude.{◌≡◌, ℕ, ◌+◌, ◌-◌, ◌*◌, ◌<◌, ◌≤◌, List, ◌∷◌, ◌++◌, [], length, take, drop};
ghost use Rattle.engine.specs.Engine.{Got};
ghost use Rattle.memo.specs.Record.{deep};
ghost use Rattle.memo.specs.Rows.{keys};
ghost use Rattle.driver.specs.Rows.{key_words, stacked};
ghost use Rattle.driver.specs.declared.stack.Head.{Head};
ghost use Rattle.driver.specs.Says.{Pushed, head_words, HeadFits, HeadSays};

use crate::state::Told;
use engine::key::{KEY_WORDS, Key};
use memo::entry::Cursor;

// The first word of a frame that looks, and of one that works.
const LOOKS: u32 = 0;

const WORKS: u32 = 1;

// How many words a frame's first ones are, and how many the frame of a rule that asks, whose newest question stands behind those.
pub const HEAD_WORDS: usize = 7;

pub const WORK_WORDS: usize = HEAD_WORDS + KEY_WORDS;

// A frame's first words: a key whose entry, at a depth, is looked at, and at which question; or a rule that waits.
#[derive(Clone, Copy)]
pub enum Head {
    Looks {
        key: Key,
        depth: usize,
        here: Cursor,
    },
    Works(Told),
}

impl Head {
    // In words.
    fn pack(self) -> [u32; HEAD_WORDS]
        requires { HeadFits self }
        ensures { result ≡ head_words self [] }
    {
        let (tag, key, x, y, z) = match self {
            Head::Looks { key, depth, here } => (LOOKS, key, depth, here.index, here.place),
            Head::Works(told) => (WORKS, told.key, told.count, told.from, 0),
        };
        let [kind, a, b] = <[u32; KEY_WORDS]>::from(key);
        [tag, kind, a, b, x as u32, y as u32, z as u32]
    }

    // That of the newest frame.
    pub fn newest(work: &[u32], f: usize) -> Head
        requires { (7 ≤ f) × (f ≤ length work.now) }
        ensures { HeadSays result (deep f work.now) (deep (f - 7) work.now) }
    {
        let h = &work[work.len() - f..];
        let key = Key::from([h[1], h[2], h[3]]);
        let (x, y, z) = (h[4] as usize, h[5] as usize, h[6] as usize);
        if h[0] == LOOKS {
            return Head::Looks {
                key,
                depth: x,
                here: Cursor { index: y, place: z },
            };
        }
        Head::Works(Told {
            key,
            count: x,
            from: y,
        })
    }
}

// Words put in front of the last f. Inlined, so that few words are copied without a call.
#[inline(always)]
fn push(work: &mut [u32], f: usize, xs: &[u32])
    requires { f + length xs.now ≤ length work.old }
    ensures { Pushed f xs.now work.old work.new }
{
    let h = work.len() - f - xs.len();
    work[h..h + xs.len()].copy_from_slice(xs);
}

// A frame's first words put in front of the frames, or of the keys that its rule asked.
#[inline(always)]
pub fn push_head(work: &mut [u32], f: usize, head: Head)
    requires { (f + 7 ≤ length work.old) × HeadFits head }
    ensures adds { deep (f + 7) work.new ≡ head_words head (deep f work.old) }
    ensures below { (m : ℕ) → m + (f + 7) ≤ length work.old → take m work.new ≡ take m work.old }
{
    push(work, f, &head.pack());
}

// The frame of a rule that asks q put in front of the keys that it asked before: ten words.
pub fn push_work(work: &mut [u32], f: usize, told: Told, q: &Key)
    requires { (f + 10 ≤ length work.old) × HeadFits (Head.Works told) }
    ensures adds { deep (f + 10) work.new ≡ head_words (Head.Works told) (key_words q.now (deep f work.old)) }
    ensures below { (m : ℕ) → m + (f + 10) ≤ length work.old → take m work.new ≡ take m work.old }
{
    push(work, f, &<[u32; KEY_WORDS]>::from(*q));
    push_head(work, f + KEY_WORDS, Head::Works(told));
}

// The keys that a rule asked, the newest first, put in the order in which it asked them.
pub fn put_in_order(asked: &mut [u32], count: usize)
    requires { length asked.old ≡ 3 * count }
    ensures { (gs : List Got) → asked.old ≡ stacked gs [] → asked.new ≡ keys gs }
{
    asked.reverse();
    // by index, since a proof knows nothing of the elements that chunks_exact_mut leaves
    for i in 0..count {
        asked[KEY_WORDS * i..KEY_WORDS * i + KEY_WORDS].reverse();
    }
}

// The answer of n words behind the newest row made its next: its length is put before it.
pub fn add_answer(work: &mut [u32], r: usize, n: usize)
    requires { (r + (1 + n) ≤ length work.old) × (length work.old < 4294967296) }
    ensures adds { take (r + (1 + n)) work.new ≡ take r work.old ++ (n ∷ take n (drop (r + 1) work.old)) }
    ensures above { (f : ℕ) → r + 1 + f ≤ length work.old → deep f work.new ≡ deep f work.old }
{
    work[r] = n as u32;
}

// An answer of n words moved from the place p down to the place t, which is one word behind the newest row.
pub fn settle(work: &mut [u32], p: usize, t: usize, n: usize)
    requires { (p + n ≤ length work.old) × (t + n ≤ length work.old) }
    ensures is { take n (drop t work.new) ≡ take n (drop p work.old) }
    ensures below { take t work.new ≡ take t work.old }
    ensures above { (f : ℕ) → t + n + f ≤ length work.old → deep f work.new ≡ deep f work.old }
{
    work.copy_within(p..p + n, t);
}
