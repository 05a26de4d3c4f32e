//! Why a part on a shelf wasn't read.

ghost use Rattle.std.specs.Prelude.{◌≡◌};
ghost use Rattle.mt_shelf.specs.Causes.{read_error};

use mt_fault::{Fault, FileError};
use std::error::Error;
use std::fmt;

/// Why a part wasn't read.
#[derive(Debug, Drop)]
pub enum ReadError {
    /// The part's first fault.
    AtFault(Fault),
    /// The shelf failed, and counted a fault.
    Shelf,
    /// Memory was refused.
    NoMemory,
}

impl fmt::Display for ReadError {
    fn fmt<W: fmt::Write>(&self, f: &mut fmt::Formatter<W>) -> fmt::Result {
        match self {
            ReadError::AtFault(fault) => write!(f, "{fault}"),
            ReadError::Shelf => write!(f, "the shelf failed"),
            ReadError::NoMemory => write!(f, "no memory"),
        }
    }
}

impl Error for ReadError {}

impl From<FileError> for ReadError {
    ghost from_gives = { λ e r. r ≡ read_error e };

    fn from(error: FileError) -> ReadError {
        match error {
            FileError::AtFault(fault) => ReadError::AtFault(fault),
            FileError::NoMemory => ReadError::NoMemory,
        }
    }
}
