// The walk that finishes a diagram and adds it to a store.
#![tactic(auto)]

mod handles;
mod placing;
mod recursion;
mod rows;
mod subject;
mod truths;
mod valuing;

pub use handles::handle_value;
pub use placing::{place_entry, place_parts};
pub use recursion::{Goal, walk};
pub use rows::table_value;
pub use subject::Subject;
pub use valuing::value;
