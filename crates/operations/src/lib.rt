// What build, negate, join and choose answer.
#![tactic(auto)]

mod answer;

pub use answer::BuildFault;
