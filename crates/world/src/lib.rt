// A small fixed world of declarations, all of it known: names looked up as at the end of one of its files.
#![tactic(auto)]

pub mod cards;
pub mod names;
pub mod world;
