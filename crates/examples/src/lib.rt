// The example of a handle: the first sheet that satisfies it.
#![tactic(auto)]

mod answer;
mod best;
mod giving;

pub use answer::ExampleFault;
pub use best::best_from;
pub use giving::{example_of, example_within};
