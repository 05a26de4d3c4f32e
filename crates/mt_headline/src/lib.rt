//! What the steps of the commands mean over the files of a shelf: a part has no fault exactly where its folder stands
//! for some rows, and the part that a command publishes stands for the rows of which it was made.
//!
//! Laws alone.
#![tactic(auto)]

mod law;

pub use law::{
    other_parts_stay, parts_are_checked_exactly, parts_have_one_outcome,
    published_parts_are_accepted, storable_rows_are_accepted,
};
