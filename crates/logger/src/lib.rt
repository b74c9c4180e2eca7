// The deck logger's own open and build.
#![tactic(auto)]

mod calls;

pub use calls::{logger_build, logger_open};
