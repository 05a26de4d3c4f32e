//! Queries over the rows of a part.
//!
//! `select_rows` gives exactly the text of a query's answer over rows in memory.
#![tactic(auto)]

mod compare;
mod plain;
mod select;

pub use select::select_rows;
