// Expressions of a line as flat code, read with a stack of the parser's own. Code, stack and line lie in one row of words that is lent. Knows nothing of items or files.
#![tactic(auto)]

mod begin;
pub mod code;
pub mod parse;
mod stack;
mod turn;
mod value;
