//! The command `merge`: parts of one table and one partition become one part.
//!
//! `merge` publishes the writer's folder of all rows in key order, rows of equal key by the earlier input.
#![tactic(auto)]

mod cells;
mod folder;
mod inputs;
mod merging;
mod places;
mod reading;
mod room;

pub use merging::{merge, merge_parts};
