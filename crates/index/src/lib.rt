// An index over entries, a store's or a table's: an equal entry is found, and equal entries are ruled out, in near-linear time.
#![tactic(auto)]

mod chains;
mod differing;
mod entry;
mod store_entry;

pub use chains::{BUCKETS, CAPACITY, Index};
pub use differing::entries_differ;
pub use entry::Indexed;
