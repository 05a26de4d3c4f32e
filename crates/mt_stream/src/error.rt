//! Why no payload was read.

ghost use Rattle.std.specs.Prelude.{◌≡◌};
ghost use Rattle.mt_stream.specs.FrameErrors.{of_frame_error};
ghost use Rattle.mt_stream.specs.declared.error.StreamError.TheVariants.{NoMemory};

use mt_frame::FrameWhy;
use mt_shelf_frame::ReadFrameError;
use std::alloc::AllocError;
use std::error::Error;
use std::fmt;

/// Why the payload between two marks wasn't read.
#[derive(Clone, Copy, Debug, PartialEq)]
pub enum StreamError {
    /// No frame stands at this offset of the file, in bytes.
    At { offset: u64, why: FrameWhy },
    /// A mark denotes no position or lies before the frame held, or the marks are out of order.
    Place,
    /// The shelf failed, and counted a fault.
    Shelf,
    /// Memory was refused.
    NoMemory,
}

impl fmt::Display for StreamError {
    fn fmt<W: fmt::Write>(&self, f: &mut fmt::Formatter<W>) -> fmt::Result {
        match self {
            StreamError::At { offset, why } => write!(f, "at {offset}: {why}"),
            StreamError::Place => write!(f, "the marks denote no payload that is still to come"),
            StreamError::Shelf => write!(f, "the shelf failed"),
            StreamError::NoMemory => write!(f, "no memory"),
        }
    }
}

impl Error for StreamError {}

impl From<ReadFrameError> for StreamError {
    ghost from_gives = { λ e s. s ≡ of_frame_error e };

    fn from(error: ReadFrameError) -> StreamError {
        match error {
            ReadFrameError::At { offset, why } => StreamError::At { offset, why },
            ReadFrameError::Shelf => StreamError::Shelf,
            ReadFrameError::NoMemory => StreamError::NoMemory,
        }
    }
}

impl From<AllocError> for StreamError {
    ghost from_gives = { λ _ s. s ≡ NoMemory };

    fn from(_error: AllocError) -> StreamError {
        StreamError::NoMemory
    }
}
