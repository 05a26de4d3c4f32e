//! Rows of projections: what the writer stores, and which stored rows stand for which rows.
//!
//! `project` makes exactly the writer's rows, and `stands_for` decides exactly whether rows stand.
#![tactic(auto)]

mod column;
mod grouped;
mod key;
mod law;
mod normal;
mod projection;
mod run;
mod sorting;
mod state;

pub use law::{projections_are_tested, written_rows_stand};
pub use projection::{project, stands_for};
