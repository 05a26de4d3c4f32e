//! Marks: where the granules of a data file begin.
//!
//! `write_marks` gives exactly the bytes of a marks file.
#![tactic(auto)]

mod entries;
mod fault;
mod law;
mod marks;
mod position;
mod raw;
mod reading;
mod rules;
mod writing;

pub use fault::MarksError;
pub use law::{
    frames_may_be_cut_anywhere, marks_have_one_position, read_marks_have_words,
    written_marks_are_read,
};
pub use marks::{MAX_PER_GRANULE, Marks};
pub use mt_defs::Mark;
pub use position::resolve;
pub use raw::raw_marks;
pub use reading::{read_mrk2, read_mrk3};
pub use rules::{Former, check_mark};
pub use writing::write_marks;
