//! Tests of the calls below a part's files that no command shows by itself: columns as substreams, one frame of a file on a
//! shelf, keys of primary.idx, the plain program.
//!
//! They show what no clause says: that there is an answer other than `NoMemory`, and the very bytes.
#![tactic(auto)]

#[cfg(test)]
mod columns;
#[cfg(test)]
mod frames;
#[cfg(test)]
mod hashes;
#[cfg(test)]
mod keys;
#[cfg(test)]
mod plain;
#[cfg(test)]
mod reading;
#[cfg(test)]
mod shared;
#[cfg(test)]
mod whys;
