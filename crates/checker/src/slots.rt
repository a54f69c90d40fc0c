// The slots of a call that are left.
ghost use Rattle.std.specs.Prelude.{◌<◌};

use crate::lookup::SigId;

// Whose they are, and which is the next one, by its index. One more than that fits a word, in which they are packed.
#[derive(Clone, Copy)]
pub struct Slots {
    pub sig: SigId,
    pub next: u32,
    pub ghost fits: { next < 4294967295 },
}
