//! The writer's layout of rows: their granules, and the choice between Wide and Compact.
//!
//! `layout_of` gives exactly the granules that the writer cuts of any rows, and exactly its choice.
#![tactic(auto)]

mod item;
mod law;
mod layout;
mod rows;

pub use law::{
    payloads_are_sums_over_rows, payloads_are_sums_over_values, written_granules_hold_all_rows,
};
pub use layout::{Layout, layout_of};
