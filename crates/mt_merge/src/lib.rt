//! Rows of several lists together, in key order.
//!
//! `merge_rows` gives exactly the one stable reordering of all rows, one input after another.
#![tactic(auto)]

mod merging;

pub use merging::merge_rows;
