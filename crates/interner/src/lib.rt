// Rows of bytes by number in lent words, the same bytes the same number, records that stand behind them, and tables of their places: what the
// stores of texts have in common.
#![tactic(auto)]

pub mod index;
pub mod lines;
pub mod numbers;
pub mod records;
pub mod refused;
pub mod row;
