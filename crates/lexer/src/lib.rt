// Lines of a text, and the pieces of a line: words, numbers, signs. Knows nothing of items, names or files.
#![tactic(auto)]

mod bytes;
pub mod lines;
pub mod reader;
pub mod theorems;
pub mod token;
