// Collecting the questions of a raw list, and opening a store with them.
#![tactic(auto)]

mod collecting;
mod opening;
mod questions;

pub use opening::open_raw;
