//! The real outside: folders, readers and writers of std. Their content isn't known to a proof.
//!
//! Each meets its trait of `mt_shelf`, so that a call fails exactly where it counts a fault.
#![tactic(auto)]

mod dir_shelf;
mod draft;
mod fault_count;
mod listing;
mod retry;
mod std_streams;

pub use dir_shelf::DirShelf;
pub use draft::DRAFT_PREFIX;
pub use listing::{MAX_DEPTH, MAX_NAMES};
pub use std_streams::{StdSink, StdSource};
