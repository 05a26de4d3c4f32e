//! The writer's folder stands for the rows that it was made of, and has few bytes.
//!
//! `written_folder_stands` says so of every table and all writable rows, and `definition_files_are_small` how many bytes
//! the files have at most. Laws alone.
#![tactic(auto)]

mod law;
mod sizes;

pub use law::{
    definitions_are_stored, written_compact_files_are_read, written_definition_holds_rows,
    written_files_are_found, written_folder_stands, written_names_are_paths, written_names_differ,
    written_wide_files_are_read,
};
pub use sizes::{
    definition_files_are_small, minmax_files_are_small, minmax_indexes_are_small,
    written_files_are_short,
};
