//! What the commands share: the status of a run, its plan, the steps that read a table and check a part, and those
//! that print a text or publish a folder.
//!
//! `accept_part` gives the rows and granules for which a part stands, or refuses as the definitions of it have it.
#![tactic(auto)]

mod cells;
mod folder;
mod limits;
mod output;
mod part;
mod status;
mod table;
mod target;

pub use cells::few_cells;
pub use folder::sorted_folder;
pub use limits::{MAX_FOLDER, MAX_INPUT, MAX_INPUTS, MAX_TABLE_TEXT};
pub use output::print;
pub use part::{accept_part, at_fault, check_listed, list_part, no_part, read_part};
pub use status::{
    Status, What, finished, status_of_rows, status_of_shelf, status_of_sink, status_of_source,
};
pub use table::read_table;
pub use target::{free_target, store_folder};
