// The verdict of a handle: which leaves some sheet reaches.
#![tactic(auto)]

mod answer;
mod deciding;
mod leaves;

pub use answer::VerdictFault;
pub use deciding::{verdict_of, verdict_within};
pub use leaves::{Leaves, leaves_from};
