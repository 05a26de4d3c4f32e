//! The types and values of a part's columns, their order, names and limits.
//!
//! Names, order and encodings are those of docs/FORMAT.md, "Types and values".
#![tactic(auto)]

mod fit;
mod law;
mod limits;
mod list;
mod memory;
mod order;
mod row;
mod ty;
mod value;
mod varint;

pub use fit::fits;
pub use law::{
    defaults_fit, names_are_read, numbers_have_one_encoding, only_names_are_read,
    rows_are_totally_ordered, tied_rows_are_the_same, tied_values_are_the_same,
    types_have_their_own_names, values_are_totally_ordered, written_numbers_are_read,
};
pub use limits::{MAX_ARRAY_DEPTH, MAX_ELEMENTS, MAX_FIXED_STRING, MAX_NAME, MAX_TEXT};
pub use list::List;
pub use memory::NoMemory;
pub use order::{compare, compare_items};
pub use row::hash_value;
pub use sqlite_items::Boxed;
pub use ty::{Agg, Ty, TyError, Width, number_size};
pub use value::{AggState, Row, Value, copy_items};
pub use varint::{VarInt, varint_get, varint_put};
