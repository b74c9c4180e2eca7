// Adding the finished diagram of what build, negate, join and choose take.
#![tactic(auto)]

mod adding;

pub use adding::add;
