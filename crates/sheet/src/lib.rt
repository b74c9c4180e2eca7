// The operations as functions that C can call, one for each, with the prototypes of include/sheet.h; crate `sheet_c` exports them. The functions do no work of
// their own: each calls its operation and gives its answer in the documents' numbers.
#![tactic(auto)]

mod answers;
mod asking;
mod changing;
mod diagrams;
mod equations;
mod logging;

pub use answers::Answer;
pub use asking::{sheet_example, sheet_read, sheet_verdict, sheet_write_back};
pub use changing::{
    sheet_build, sheet_choose, sheet_join, sheet_negate, sheet_open, sheet_open_raw,
};
pub use diagrams::sheet_check_normal_form;
pub use equations::sheet_simplify;
pub use logging::{sheet_logger_build, sheet_logger_open};
