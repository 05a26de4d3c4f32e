//! The checks of a part's folder, in their order, and the first fault.
//!
//! `check` reads a part from a shelf and gives the rows for which it stands, or its first fault.
#![tactic(auto)]

mod folder;
mod law;
mod part_on_shelf;
mod partition;
mod projection;
mod reading;
mod skip_index;

pub use folder::{PartFiles, check_files};
pub use law::partitions_are_checked;
pub use part_on_shelf::{MAX_FOLDER, check, check_listed};
pub use reading::read_part;
