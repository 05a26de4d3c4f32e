//! Tests of stored rows in answers, which no command shows by itself.
//!
//! They show what no clause says: that there is an answer other than `NoMemory`.
#![tactic(auto)]

#[cfg(test)]
mod merging;
