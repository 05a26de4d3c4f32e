//! The command `write`: rows from the input become a part.
//!
//! `write` publishes the writer's folder of the input's rows in key order at a free target.
#![tactic(auto)]

mod folder;
mod input;
mod law;
mod partition;
mod writing;

pub use law::published_folders_stand;
pub use writing::write;
