//! Columns in memory: the values of one column as its substreams, and rows as a block of columns.
//!
//! Contracts see a column as its shape and the list of its values, and a block as the list of its rows.
#![tactic(auto)]

mod append;
mod column;
mod compare;
mod law;
mod leaf;
mod nested;
mod nulls;
mod push;
mod shape;

pub use append::append_range;
pub use column::Column;
pub use compare::compare_nested;
pub use law::values_fit_their_columns;
pub use leaf::Leaf;
pub use nested::{elements, nested_len, nested_seen};
pub use push::push_value;
