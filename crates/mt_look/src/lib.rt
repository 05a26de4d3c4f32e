//! Values of rows as a reader shows them, so that what folds rows need not have them in memory.
//!
//! A `Look` gives each value of a column that it shows; `Rows` is one over rows in memory.
#![tactic(auto)]

mod look;
mod rows;
mod seen;

pub use look::Look;
pub use rows::Rows;
pub use seen::Seen;
