//! The files of a part by their names: which it has, and what they say that a checker or a plan needs.
//!
//! `read_named` gives exactly the files of some names that a part on a shelf has, and `read_entries` exactly
//! the entries of a skip index.
#![tactic(auto)]

mod definition_names;
mod files;
mod listed;
mod listing;
mod named_files;
mod part_names;
mod skip_entries;
mod skip_marks;
mod texts;

pub use definition_names::{own_names, push_name, push_skip_names};
pub use files::{bytes_of, find, is_compact};
pub use listed::listed_columns;
pub use listing::{has_below, is_compact_below, size_of};
pub use named_files::{path_of, read_listed, read_named};
pub use part_names::base_names;
pub use skip_entries::{SkipEntries, has_files, read_entries};
pub use texts::{read_order, read_row_count};
