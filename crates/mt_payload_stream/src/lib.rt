//! The payloads of a data file on a shelf, each read by its mark, front to back.
//!
//! `PayloadStream::read` appends exactly the payload of a mark, and takes no frame of the file twice.
#![tactic(auto)]

mod payload_stream;
mod reading;

pub use payload_stream::PayloadStream;
