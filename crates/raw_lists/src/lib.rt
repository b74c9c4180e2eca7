// Lists of equations as they come: the list of questions that one results in, and what opening a store with it answers. The rest is in specs/ and proofs/.
#![tactic(auto)]

mod answer;

pub use answer::RawFault;
