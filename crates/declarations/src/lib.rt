// What a line declares and which file it uses, read from the line's typed view.
// Knows nothing of files, or of what names mean.
#![tactic(auto)]

pub mod declare;
pub mod fields;
pub mod theorems;
