// The store of texts in one lent row of words: files in the order in which they were opened, a file as its name and the numbers of its
// lines, a line's number by its bytes, and words to work in. A change is refused by the weight of the texts alone, and what no file has is
// cleared away where a change wants the room; lines get other numbers then. Beside it stands crate `store`, which has its texts in separate
// slices and keeps lines' numbers; what the two have in common is in crate `interner`. Knows nothing of what a line says.
#![tactic(auto)]

mod change;
pub mod half;
mod place;
mod reclaim;
mod row;
pub mod texts;
mod weights;
mod widen;
