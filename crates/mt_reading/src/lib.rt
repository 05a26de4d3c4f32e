//! The commands `check` and `rows`: what they print of a part that stands for rows.
#![tactic(auto)]

mod reading;

pub use reading::{check, rows};
