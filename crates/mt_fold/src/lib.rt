//! Queries over rows: conditions, groups, and the text of an answer.
//!
//! A `Partial` gathers rows one by one, and its text is exactly the query's answer over those rows.
#![tactic(auto)]

mod aggregate;
mod answer;
mod condition;
mod group;
mod item;
mod partial;
mod row;
mod state;
mod value;

pub use aggregate::{aggregate_of, is_grouped};
pub use condition::{keeps, truth};
pub use item::item_columns;
pub use partial::Partial;
pub use row::{index_in, key_of};
pub use state::empty_states;
