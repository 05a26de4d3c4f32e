//! Lines of tab separated values as rows, and back.
//!
//! `read_rows` gives exactly the rows of a text, or the first line that is none with its first why.
#![tactic(auto)]

mod array;
mod ascii;
mod cells;
mod day;
mod digits;
mod escape;
mod fault;
mod field;
mod law;
mod level;
mod line;
mod nesting;
mod number;
mod print;
mod quote;
mod rows;
mod scalar;
mod space;
mod split;
mod text;
mod writing;

pub use cells::room_after;
pub use fault::{RowError, RowWhy};
pub use law::{rows_of_bytes_fit, written_rows_are_read};
pub use mt_table::{MAX_CELLS, MAX_ROWS};
pub use rows::read_rows;
pub use writing::write_row;
