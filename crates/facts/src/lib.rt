// The facts gathered along a path, and what they force.
#![tactic(auto)]

mod adding;
mod asking;
mod deciding;
mod decision;
mod fact;
mod least;
mod noes;
mod place;
mod record;
mod working;

pub use adding::{add, no};
pub use asking::{Asked, ask, yes};
pub use deciding::decision_of;
pub use decision::{Decision, Join, Plan, plan_yes};
pub use fact::Fact;
pub use least::{Sheet, has_count, least_sheet};
pub use noes::{Noes, WordPair};
pub use place::Place;
pub use record::{FIELDS, Facts, no_facts, offset_of};
pub use working::added;
