//! Names that may not stand below a part.
//!
//! `check_names` gives the first listed name that no file of the part has, as a fault.
#![tactic(auto)]

mod known_names;
mod name_set;
mod strays;

pub use strays::check_names;
