//! Frames: the uncompressed blocks that data files are made of.
//!
//! Any payload is written: `put_frames` appends exactly the writer's frames of it, which have it. Any bytes are
//! read: `frames_of` gives the frames of a file, or the first offset where none stands.
#![tactic(auto)]

mod fault;
mod frames;
mod header;
mod law;
mod reading;
mod writing;

pub use fault::{FrameError, FrameWhy};
pub use frames::Frames;
pub use header::payload_len;
pub use law::{
    framed_bytes_have_one_payload, frames_are_read_exactly, written_frames_have_their_payload,
};
pub use mt_defs::Frame;
pub use reading::frames_of;
pub use writing::put_frames;
