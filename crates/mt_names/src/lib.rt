//! The names of a part's files, for who writes them and who looks for them.
//!
//! `stream_names` gives the names of a column's substreams; `skip_data_name`, `skip_marks_name`, `minmax_name`
//! and `folder_name` give those of what else has files of its own. The other files have fixed names.
#![tactic(auto)]

mod escape;
mod fixed;
mod partition;
mod projections;
mod skips;
mod streams;

pub use escape::with_ending;
pub use fixed::{COLUMNS_FILE, COUNT_FILE, DATA_FILE, INDEX_FILE, MARKS_FILE, PARTITION_FILE};
pub use partition::minmax_name;
pub use projections::{folder_name, prefix_at, prefix_of};
pub use skips::{skip_data_name, skip_marks_name};
pub use streams::{data_name, stream_names};
