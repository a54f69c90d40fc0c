// Answers worked out from the texts alone, in one row of words: a slot for the line that is looked at, the texts, the symbol table, room
// to work in. A file goes with the layout of its row; source and words stay parameters of their own, for each clause names both, and through
// a struct each name would be a path. Lines are asked of the source by number.
#![tactic(auto)]

pub mod faults;
pub mod inspect;
pub mod review;
