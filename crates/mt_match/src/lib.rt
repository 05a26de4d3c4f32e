//! Conditions on the entries of skip indexes.
//!
//! `may_match` says whether an entry lets a condition be true on some row of its granules: where it
//! says no, none of these rows makes it true.
#![tactic(auto)]

mod entry;
mod matching;

pub use matching::may_match;
