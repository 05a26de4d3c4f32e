//! The top call: `run` does all that the program does, over any source, sinks and shelf.
//!
//! Its contract has each refusal in order, the effect, when faults come and what stands afterwards.
#![tactic(auto)]

mod parsed;
mod perform;
mod top;
mod words;

pub use mt_command::{MAX_FOLDER, MAX_INPUT, MAX_TABLE_TEXT, Status, What};
pub use mt_workers::MAX_WORKERS;
pub use mt_writing::published_folders_stand;
pub use top::run;
