// Names looked up in a symbol table that stands in words: what they mean in a file's line, all of it known. Every function is total: of
// a row that is no symbol table it tells what its words say.
#![tactic(auto)]

mod handles;
pub mod names;
pub mod plain;
pub mod search;
pub mod table;
pub mod theorems;
