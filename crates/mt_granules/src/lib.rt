//! The granules of columns in data files: what Wide and Compact parts share.
//!
//! `encode_column` gives exactly the writer's substreams of a column over some rows, and `DataFile` exactly
//! the writer's frames and marks of some payloads. `read_payloads` gives exactly the payloads of granules in
//! a data file with its marks file, or the first fault of the two.
#![tactic(auto)]

mod columns;
mod data_file;
mod file_index;
mod files;
mod payload;
mod payloads;
mod reading;
mod reason;
mod rows;

pub use columns::encode_column;
pub use data_file::{DataFile, MarkedData};
pub use file_index::FileIndex;
pub use payloads::{Payload, Payloads};
pub use reading::{frame_why, read_granules, read_payloads};
pub use reason::codec_why;
pub use rows::{append_column, first_rows};
