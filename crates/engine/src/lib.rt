// An engine that keeps answers and works out no more than it must, for any rules.
#![tactic(auto)]

pub mod key;
pub mod rules;
pub mod theorems;
