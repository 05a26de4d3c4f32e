//! Skip indexes: what an entry keeps of the values of its granules, and which entries are theirs.
//!
//! `entries` makes exactly the writer's entries, and `agrees` decides exactly whether an entry is the
//! one of some values.
#![tactic(auto)]

mod agreement;
mod distinct;
mod entry;
mod extreme;
mod groups;
mod law;
mod listed;
mod seen;

pub use agreement::agrees;
pub use groups::entries;
pub use law::{
    entries_without_a_value_disagree, summaries_are_tested, written_entries_agree,
    written_entry_agrees,
};
pub use listed::{are_distinct, read_items};
