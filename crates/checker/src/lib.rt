// What a line says, found out in one pass over its flat code. All lies in one row of words that is lent; what names mean is looked up.
#![tactic(auto)]

mod calls;
pub mod check;
mod lines;
pub mod lookup;
pub mod packed;
pub mod rows;
pub mod said;
pub mod samples;
pub mod slots;
mod turns;
mod types;
mod verdict;
