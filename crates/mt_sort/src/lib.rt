//! Rows in the order of a table's sort key, rows of equal key in their former order.
//!
//! `sort_rows` gives exactly the one stable reordering.
#![tactic(auto)]

mod compare;
mod huge;
mod law;
mod one_rank;
mod rank;
mod sorting;
mod two_ranks;

pub use law::there_is_one_stable_order;
pub use sorting::sort_rows;
