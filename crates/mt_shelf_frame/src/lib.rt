//! One frame of a file on a shelf, taken in place: its header, and then its payload in one piece.
#![tactic(auto)]

mod error;
mod one_frame;

pub use error::ReadFrameError;
pub use one_frame::read_frame;
