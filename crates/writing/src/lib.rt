// Writing a handle back as a rule table.
#![tactic(auto)]

mod answer;
mod marking;
mod rows;
mod writing;

pub use answer::{WriteFault, written_result};
pub use writing::{write_back, write_back_within};
