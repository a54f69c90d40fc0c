// (in work)
#![tactic(auto)]

pub mod theorems;
