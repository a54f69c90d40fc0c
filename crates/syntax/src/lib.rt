// Whole lines: the item that a line is, as flat code in lent words, or where it isn't understood.
// Knows nothing of files, or of what names mean.
#![tactic(auto)]

mod defs;
mod items;
mod lists;
mod parts;
pub mod read;
mod reading;
pub mod view;
mod wanted;
