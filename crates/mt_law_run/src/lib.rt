//! What the contract of `mt_run::run` promises, each sentence a law of what a run does: what the part that was written
//! or merged stands for, what is printed of a part, when a command is done, and what it leaves alone.
//!
//! Laws alone, of `Runs`, which the contract states of every run.
#![tactic(auto)]

mod ending;
mod merged;
mod reading;
mod staying;
mod tables;
mod written;

pub use ending::{failures_are_reported, nothing_else_stops_a_run, workers_change_nothing};
pub use merged::{merged_parts_are_read, merged_parts_stand};
pub use reading::{
    bad_parts_are_refused, good_parts_are_read, parts_at_fault_stand_for_none,
    printed_texts_are_of_the_rows,
};
pub use staying::other_parts_stay_as_they_were;
pub use tables::tables_are_what_texts_define;
pub use written::{written_parts_are_read, written_parts_stand};
