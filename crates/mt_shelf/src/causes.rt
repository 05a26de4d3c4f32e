//! Why a call that reaches outside failed.
ghost use Rattle.std.specs.Prelude.{◌≡◌};
ghost use Rattle.mt_shelf.specs.declared.causes.CallError.TheVariants.{Failed, NoMemory};

use mt_types::NoMemory;
use std::alloc::{AllocError, AllocFailed};
use std::error::Error;
use std::fmt;

/// An object outside failed, and counted a fault.
#[derive(Clone, Copy, Debug)]
pub struct Failed;

impl fmt::Display for Failed {
    fn fmt<W: fmt::Write>(&self, f: &mut fmt::Formatter<W>) -> fmt::Result {
        write!(f, "input or output failed")
    }
}

impl Error for Failed {}

/// Why a call failed that takes memory in some implementations.
#[derive(Clone, Copy, Debug)]
pub enum CallError {
    /// The object failed, and counted a fault.
    Failed,
    /// Memory was refused; no fault was counted.
    NoMemory,
}

impl fmt::Display for CallError {
    fn fmt<W: fmt::Write>(&self, f: &mut fmt::Formatter<W>) -> fmt::Result {
        match self {
            CallError::Failed => write!(f, "input or output failed"),
            CallError::NoMemory => write!(f, "no memory"),
        }
    }
}

impl Error for CallError {}

impl From<Failed> for CallError {
    ghost from_gives = { λ _ e. e ≡ Failed };

    fn from(_error: Failed) -> CallError {
        CallError::Failed
    }
}

impl From<NoMemory> for CallError {
    ghost from_gives = { λ _ e. e ≡ NoMemory };

    fn from(_error: NoMemory) -> CallError {
        CallError::NoMemory
    }
}

impl From<AllocError> for CallError {
    ghost from_gives = { λ _ e. e ≡ NoMemory };

    fn from(_error: AllocError) -> CallError {
        CallError::NoMemory
    }
}

impl<T: Drop> From<AllocFailed<T>> for CallError {
    ghost from_gives = { λ _ e. e ≡ NoMemory };

    fn from(_error: AllocFailed<T>) -> CallError {
        CallError::NoMemory
    }
}
