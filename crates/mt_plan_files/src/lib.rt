//! The files that planning reads of a part, each once, and how many bytes they have.
//!
//! `read_planned` gives exactly those that are there, and takes no more bytes than they have, whatever it returns.
#![tactic(auto)]

mod condition;
mod names;
mod reading;

pub use condition::names_column;
pub use names::granules_name;
pub use reading::read_planned;
