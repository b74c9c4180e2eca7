// Build, negate, join and choose.
#![tactic(auto)]

mod calls;

pub use calls::{
    build, build_within, choose, choose_within, join, join_within, negate, negate_within,
};
