//! The small files of a part: columns.txt, count.txt, primary.idx and the files of its partition.
//!
//! They are written exactly (`columns_text`, `count_text`, `primary_bytes`, `partition_files`), and any bytes
//! are read (`read_columns`, `read_count`, `read_keys`): what they say, or the first thing that is wrong.
#![tactic(auto)]

mod ascii;
mod cell;
mod columns;
mod count;
mod digits;
mod expression;
mod keys;
mod law;
mod listing;
mod minmax;
mod month;
mod order;
mod partition;
mod primary;
mod same;
mod split;

pub use columns::{columns_text, read_columns};
pub use count::{CountWhy, count_text, read_count};
pub use keys::read_keys;
pub use law::{
    counts_are_read, listed_columns_are_read, months_are_those_of_the_calendar,
    only_lists_are_read, written_keys_are_read, written_partitions_are_compared,
};
pub use month::month_of;
pub use partition::partition_files;
pub use primary::primary_bytes;
pub use same::same_partition;
