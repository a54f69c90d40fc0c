// The symbol table of texts, collected from their lines into a row of words. The table's layout stands in the crate symbols. A file goes with
// the layout of its row; source and words stay parameters of their own, for each clause names both, and through a struct each name would be a
// path. Lines and files are asked of the source by number.
#![tactic(auto)]

pub mod collect;
mod entry;
mod line;
mod lines;
mod row;
mod uses;

// Too few words were lent.
#[derive(Clone, Copy, PartialEq, Eq, Debug)]
pub struct NoRoom;
