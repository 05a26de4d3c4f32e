//! Conditions on rows of which only bounds are known.
//!
//! `mask` says what a condition can be on the values of a box, `cover` which boxes hold the keys
//! between two, and `may_hold` whether any of these may make the condition true.
#![tactic(auto)]

mod atoms;
mod bounds;
mod boxes;
mod ends;
mod hold;
mod law;
mod masks;
mod prefix;
mod ranges;
mod types;
mod walk;

pub use boxes::cover;
pub use hold::may_hold;
pub use law::covers_hold_the_keys_between;
pub use masks::{mask, mask_between};
pub use types::{End, Interval, KeyColumn, MaskPair, Side};
