// Rule tables: their rows, what they mean, and which of them build takes.
#![tactic(auto)]

mod answer;
mod decoding;
mod faults;
mod kind;
mod listing;
mod row;

pub use answer::TableFault;
pub use decoding::{Part, Shape, decode};
pub use faults::table_fault;
pub use kind::{Kind, UnknownKind};
pub use row::{MOST_ROWS, ROW_LENGTH, Row, row_at};
