// A plain evaluator of what the operations must answer by documents 01 and 02, written apart from them: it calls none of them.
#![tactic(auto)]

mod adding;
mod answers;
mod asking;
mod calls;
mod counts;
mod drawing;
mod entries;
mod equations;
mod fillings;
mod grid;
mod layout;
mod limits;
mod meaning;
mod opening;
mod orders;
mod raw_lists;
mod reaching;
mod refusals;
mod rules;
mod sound;
mod truth;
mod verdicts;
mod words;

pub use adding::expect_added;
pub use answers::Answer;
pub use asking::{expect_example, expect_read, expect_verdict, expect_written, is_example};
pub use calls::Call;
pub use counts::{Counts, counts_of};
pub use entries::{Entry, put_entry};
pub use equations::{Equation, field, steps};
pub use fillings::BLANK;
pub use grid::Sheet;
pub use layout::{HEADING, ORDER_PLACE, Store, USED_PLACE};
pub use limits::{Limits, MOST_STEPS, Side};
pub use opening::{Opening, expect_opened};
pub use orders::Order;
pub use raw_lists::{expect_raw_opened, found_in};
pub use refusals::Refusal;
pub use rules::{Row, check_table};
pub use verdicts::Verdict;
pub use words::{Words, at, copy, first, put};
