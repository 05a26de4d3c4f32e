//! Stored rows of projections as rows of an answer.
//!
//! `Placed` shows them as rows of the table, and `add_stored` merges those of an aggregate projection
//! into a partial answer; the laws say that answers from stored rows are those from the rows for
//! which they stand.
#![tactic(auto)]

mod group;
mod grouped;
mod law;
mod placed;
mod stored;

pub use grouped::Grouped;
pub use law::{
    gathered_groups_are_merged, other_rows_add_nothing, other_stored_rows_add_nothing,
    stored_columns_answer_for_rows, stored_states_answer_for_rows,
};
pub use placed::Placed;
pub use stored::add_stored;
