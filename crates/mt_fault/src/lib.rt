//! Files by name, and what can be wrong with the files of a part.
//!
//! A reader of files in memory answers what they say or their first fault (`FileError`); `specs/Results.antt`
//! has the words in which all of them say so.
#![tactic(auto)]

mod error;
mod fault;
mod file;

pub use error::{FileError, file_fault, granule_fault, marks_fault, offset_fault};
pub use fault::{Fault, Why};
pub use file::FileBytes;
