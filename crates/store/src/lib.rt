// The store: its layout, its soundness, and opening it.
#![tactic(auto)]

mod answer;
mod entries;
mod opening;
mod verdict;
mod words;

pub use answer::OpenFault;
pub use entries::{Entry, append, entry_from, entry_of};
pub use opening::{list_fault, open, open_within, question_in, write_opened};
pub use verdict::{Verdict, verdict_result};
pub use words::{
    HEADING, LEAVES, clear_from, entries_start, field_count, has_handle, left_word, question_at,
    question_count, right_word, room, set_used, store_order, used, wide,
};
