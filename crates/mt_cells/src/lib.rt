//! The items of one substream in memory: numbers, texts or states, one after another.
//!
//! Contracts see the list of their values. Items of a fixed width lie as a file has them, so bytes become
//! items by one move of a slice, and items bytes by another.
#![tactic(auto)]

mod cells;
mod items;
mod kind;
mod law;
mod seen;
mod sizes;
mod texts;

pub use cells::Cells;
pub use items::Items;
pub use kind::Kind;
pub use law::{defaults_are_items, items_are_not_null};
pub use seen::{Seen, compare_seen};
pub use sizes::Sizes;
pub use texts::Texts;
