//! What the bytes of a part mean: the definitions that every contract of the crates above cites.
//!
//! The two records and the limits on frames are shared by the definitions and the code.
#![tactic(auto)]

mod frame;
mod mark;
mod worked;

pub use frame::{
    CHECKSUM_BYTES, FRAME_PAYLOAD, Frame, HEADER_BYTES, MAX_PAYLOAD, METHOD_NONE, SIZES_EXTRA,
};
pub use mark::Mark;
pub use mt_table::{MAX_CELLS, MAX_ROWS};
pub use worked::{worked_folder, worked_order};
