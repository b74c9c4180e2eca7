// A witness in code that the handle law speaks of what the functions do.
#![tactic(auto)]

mod joining;

pub use joining::join_both_ways;
