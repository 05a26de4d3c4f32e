//! States of aggregates: count, sum, min and max.
//!
//! A state is the fold of the numbers it has gathered: two states merged are that of both lists.
#![tactic(auto)]

mod folding;
mod join;
mod law;
mod place;
mod state;

pub use folding::Folding;
pub use law::merged_states_are_folds;
pub use place::aggregate_index;
