//! Rounds: numbered tasks that workers do side by side.
//!
//! `round` gives what each task gives, in the order of the tasks, for any number of workers and any gate, and
//! `first_failed` the values of all results or the first error.
#![tactic(auto)]

mod gathering;
mod results;
mod tasks;

pub use results::first_failed;
pub use tasks::round;
