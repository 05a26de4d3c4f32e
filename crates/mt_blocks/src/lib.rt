//! Rows in memory, column by column, and their order by a key.
//!
//! Contracts see a block as the list of its rows.
#![tactic(auto)]

mod block;
mod law;
mod rank;
mod sort;

pub use block::Block;
pub use law::gathered_rows_are_sorted;
pub use sort::sorted_order;
