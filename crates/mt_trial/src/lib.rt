//! The command `trial`: made rows are written as two parts, merged, checked and queried, all in memory.
//!
//! `trial` prints exactly the text of its numbers; a law, `trials_have_one_outcome`, says that the steps which write, merge,
//! check and query its parts come to this text alone.
#![tactic(auto)]

mod answers;
mod halves;
mod law;
mod merged;
mod rows;
mod running;
mod table;
mod words;

pub use law::trials_have_one_outcome;
pub use rows::MAX_TRIAL_ROWS;
pub use running::trial;
pub use words::{number_in, rows_in};
