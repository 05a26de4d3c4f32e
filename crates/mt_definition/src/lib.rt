//! The folder of a definition, of the part itself or of a projection: its rows, or its first fault.
//!
//! `read_definition` gives exactly the rows and granules that the files hold, or the first fault.
#![tactic(auto)]

mod accepted;
mod cells;
mod data;
mod definition;
mod primary_index;
mod sort_order;
mod whole_rows;

pub use accepted::Accepted;
pub use definition::read_definition;
pub use sort_order::granule_of;
