//! Tests of conditions on bounds and on entries of skip indexes.
//!
//! They show what no clause says: that there is an answer other than `NoMemory`, that deep conditions fit
//! on the stack, and values from outside.
#![tactic(auto)]

#[cfg(test)]
mod entries;
#[cfg(test)]
mod keys;
#[cfg(test)]
mod masks;
#[cfg(test)]
mod shared;
#[cfg(test)]
mod small;
