// The memo: the engine's entries in one lent row of words. What a caller sees are entries: to store one, find one, read it, go back to
// a mark, and repack. A record is an entry where it stands, and a chain leads to it. Knows nothing of rules or inputs.
#![tactic(auto)]

pub mod chain;
pub mod entry;
pub mod index;
pub mod log;
pub mod mark;
pub mod record;
pub mod repack;
mod row;
pub mod slot;
