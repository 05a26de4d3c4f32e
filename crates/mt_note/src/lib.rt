//! The notes: one line of a status that isn't `Done`.
//!
//! `report` writes it, and gives the status of the run, which stays as it was unless memory runs out.
#![tactic(auto)]

mod line;
mod reporting;

pub use reporting::report;
