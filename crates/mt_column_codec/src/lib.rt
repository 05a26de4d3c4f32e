//! The serialization of columns in memory.
//!
//! A range of a column gives exactly the substreams that `mt_codec` gives of the list of its values; items of
//! a fixed width are moved as one slice.
#![tactic(auto)]

mod cells;
mod encoding;
mod written;

pub use encoding::encode_column;
