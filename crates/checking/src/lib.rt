// The check of a table of entries for Definition 28's normal form: six conditions, each tested over the whole table before the next.
#![tactic(auto)]

mod checking;
mod diagram;
mod differing;
mod entries;
mod handles;
mod marking;
mod naming;
mod ordering;
mod questions;
mod sets;
mod table;

pub use checking::check_normal_form;
