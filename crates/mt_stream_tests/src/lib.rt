//! Tests of a data file that is read from the front.
//!
//! They show what no clause says: that there is an answer other than `NoMemory`.
#![tactic(auto)]

#[cfg(test)]
mod files;
#[cfg(test)]
mod frames;
#[cfg(test)]
mod marks;
#[cfg(test)]
mod reading;
