//! A data file of a part on a shelf and the numbers of its marks file, before any payload is read.
//!
//! `MarkedFile::open` gives exactly the file's size and the entries of its marks, or what of them isn't there. It takes
//! no more bytes than the marks file has, and none where that file is at hand.
#![tactic(auto)]

mod error;
mod law;
mod marked_file;
mod opening;
mod raw;
mod whole_file;

pub use law::read_files_are_opened;
pub use marked_file::MarkedFile;
