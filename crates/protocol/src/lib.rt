// The line format in which changes and questions come and replies go, as functions on bytes. No input or output of its own.
#![tactic(auto)]

pub mod header;
pub mod number;
pub mod reply;
