//! Why a text names no type.

use crate::memory::NoMemory;
use std::error::Error;
use std::fmt;

/// Why a text names no type.
#[derive(Clone, Copy, Debug, PartialEq)]
pub enum TyError {
    /// The text is the name of no type of the profile.
    NotAType,
    /// Out of memory.
    NoMemory,
}

impl fmt::Display for TyError {
    fn fmt<W: fmt::Write>(&self, f: &mut fmt::Formatter<W>) -> fmt::Result {
        match self {
            TyError::NotAType => write!(f, "not the name of a type"),
            TyError::NoMemory => write!(f, "out of memory"),
        }
    }
}

impl Error for TyError {}

impl From<NoMemory> for TyError {
    ghost use Rattle.std.specs.Prelude.{◌≡◌};
    ghost use Rattle.mt_types.specs.declared.ty.error.TyError.TheVariants.{NoMemory};

    ghost from_gives = { λ _ error. error ≡ NoMemory };

    fn from(_error: NoMemory) -> TyError {
        TyError::NoMemory
    }
}
