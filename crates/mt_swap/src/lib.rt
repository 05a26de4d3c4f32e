//! A shelf in memory that becomes another, as real folders do where others write.
#![tactic(auto)]

mod swap_shelf;

pub use swap_shelf::SwapShelf;
