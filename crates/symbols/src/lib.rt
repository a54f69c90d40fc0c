// The symbol table in words: its layout stands in specs/Table, that of the row in which it and the texts lie in specs/Rows. Reading is
// total: past the row's end all is 0.
#![tactic(auto)]

pub mod layout;
pub mod read;
