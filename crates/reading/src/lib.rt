// Reading a sheet, on which some fields may not be counted, against a handle.
#![tactic(auto)]

mod answer;
mod counting;
mod following;
mod reading;

pub use answer::{ReadFault, Reading, read_result};
pub use following::read_sound;
pub use reading::{read, read_within};
