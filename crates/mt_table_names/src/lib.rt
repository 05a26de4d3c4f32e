//! The names in a table text: which they are, where they stand among the columns, and the rules on names alone.
//!
//! `Names` has different names and finds one at once; by it names become places, and names that aren't there are found.
#![tactic(auto)]

mod names;
mod own;
mod places;
mod present;
mod sentence;

pub use names::{Names, differ, distinct};
pub use own::own_names;
pub use sentence::{
    ElementNames, ItemNames, PartitionNames, element_names, item_names, partition_names,
};
