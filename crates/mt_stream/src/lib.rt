//! One data file that is read from the front: payloads between marks, with one frame held.
#![tactic(auto)]

mod error;
mod stream;

pub use error::StreamError;
pub use stream::FrameStream;
