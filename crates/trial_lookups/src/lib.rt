// The checker tried with two lookups that need no declarations, and types tried in words.
#![tactic(auto)]

mod samples;
