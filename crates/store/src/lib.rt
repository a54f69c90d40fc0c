// The store of texts in lent words: files in the order in which they were opened, a file as its name and the numbers of its lines, a
// line's number by its bytes. Knows nothing of what a line says. Beside it stands crate `text_row`, which has its texts in one row; what the
// two have in common is in crate `interner`.
#![tactic(auto)]

pub mod edit;
mod files;
pub mod reclaim;
pub mod texts;
mod view;
