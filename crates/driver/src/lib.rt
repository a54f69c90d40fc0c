// The engine's loop in one lent row of words, for any rules and inputs.
#![tactic(auto)]

mod back;
pub mod bring;
mod call;
mod look;
mod repack;
mod run;
mod stack;
mod state;
mod tell;
mod turn;
mod within;
