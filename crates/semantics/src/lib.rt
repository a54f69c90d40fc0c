// What names mean and what is said of a line: the theorems about the definitions in specs/.
#![tactic(auto)]

pub mod fault;
pub mod sort;
pub mod theorems;
