//! What planning knows of a folder: the rows of its granules, and the primary keys at their bounds.
//!
//! `read_known` gives exactly what the files say, or a fault where they say nothing.
#![tactic(auto)]

mod granules;
mod keys;
mod known;

pub use known::{Known, read_known};
