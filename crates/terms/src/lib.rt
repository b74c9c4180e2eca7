// Terms, equations of two terms, simplifying them, and the orders of questions.
#![tactic(auto)]

mod limits;
mod lines;
mod order;
mod question;
mod refusal;
mod simplification;
mod term;

pub use limits::{
    Limits, MOST_ENTRIES, MOST_FIELDS, MOST_QUESTIONS, TermLimits, limits_of_logger,
    limits_of_store, term_limits, terms_within,
};
pub use order::{ListOrder, UnknownOrder, precedes};
pub use question::is_simplified;
pub use refusal::{Refusal, answer_number};
pub use simplification::{
    Guard, OutOfLimits, Simplified, SimplifyAnswer, simplify, simplify_equation, simplify_within,
};
pub use term::{Equation, Field, Steps, Term, allows, word_of};
