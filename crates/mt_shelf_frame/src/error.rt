//! Why no frame was read from a shelf.

ghost use Rattle.std.specs.Prelude.{◌≡◌};
ghost use Rattle.mt_shelf_frame.specs.CallErrors.{of_call};

use mt_frame::FrameWhy;
use mt_shelf::CallError;
use std::error::Error;
use std::fmt;

/// Why no frame was read from a shelf.
#[derive(Clone, Copy, Debug, PartialEq)]
pub enum ReadFrameError {
    /// No frame stands at this offset of the file, in bytes.
    At { offset: u64, why: FrameWhy },
    /// The shelf failed, and counted a fault.
    Shelf,
    /// Memory was refused.
    NoMemory,
}

impl fmt::Display for ReadFrameError {
    fn fmt<W: fmt::Write>(&self, f: &mut fmt::Formatter<W>) -> fmt::Result {
        match self {
            ReadFrameError::At { offset, why } => write!(f, "at {offset}: {why}"),
            ReadFrameError::Shelf => write!(f, "the shelf failed"),
            ReadFrameError::NoMemory => write!(f, "no memory"),
        }
    }
}

impl Error for ReadFrameError {}

impl From<CallError> for ReadFrameError {
    ghost from_gives = { λ e r. r ≡ of_call e };

    fn from(error: CallError) -> ReadFrameError {
        match error {
            CallError::Failed => ReadFrameError::Shelf,
            CallError::NoMemory => ReadFrameError::NoMemory,
        }
    }
}
