//! Why no frame stands at an offset.

ghost use Rattle.std.specs.Prelude.{◌≡◌};
ghost use Rattle.mt_frame.specs.declared.fault.FrameError.TheVariants as error;

use mt_types::NoMemory;
use std::error::Error;
use std::fmt;

/// The first condition of a frame that the bytes at an offset break.
#[derive(Clone, Copy, Debug, PartialEq)]
pub enum FrameWhy {
    /// Fewer than 25 bytes remain, or the file ends inside the payload.
    Cut,
    /// The compression method is not NONE.
    Method,
    /// The first size isn't the second and 9 more, or the payload is empty.
    Sizes,
    /// The payload has more than `MAX_PAYLOAD` bytes.
    TooLong,
}

/// Why no frame was read.
#[derive(Clone, Copy, Debug, PartialEq)]
pub enum FrameError {
    /// No frame stands at this offset of the file, in bytes.
    At { offset: u64, why: FrameWhy },
    /// Memory was refused.
    NoMemory,
}

impl fmt::Display for FrameWhy {
    fn fmt<W: fmt::Write>(&self, f: &mut fmt::Formatter<W>) -> fmt::Result {
        match self {
            FrameWhy::Cut => write!(f, "the file ends inside a frame"),
            FrameWhy::Method => write!(f, "the compression method is not NONE"),
            FrameWhy::Sizes => write!(f, "the sizes of a frame disagree"),
            FrameWhy::TooLong => write!(f, "the payload of a frame is too long"),
        }
    }
}

impl Error for FrameWhy {}

impl fmt::Display for FrameError {
    fn fmt<W: fmt::Write>(&self, f: &mut fmt::Formatter<W>) -> fmt::Result {
        match self {
            FrameError::At { offset, why } => write!(f, "at {offset}: {why}"),
            FrameError::NoMemory => write!(f, "no memory"),
        }
    }
}

impl Error for FrameError {}

impl From<NoMemory> for FrameError {
    ghost from_gives = { λ _ e. e ≡ error.NoMemory };

    fn from(_error: NoMemory) -> FrameError {
        FrameError::NoMemory
    }
}
