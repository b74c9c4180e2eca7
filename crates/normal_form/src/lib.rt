// Definition 28's normal form of a table of entries: what a check of it answers, and its limits. The definitions stand in specs/, the theorems in
// proofs/; the check itself is crate `checking`.
#![tactic(auto)]

mod answer;
mod entry;
mod limits;

pub use answer::CheckFault;
pub use entry::Entry;
pub use limits::{MOST_TABLE_ENTRIES, TableLimits, limits_of_table};
