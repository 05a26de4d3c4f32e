//! Why a text isn't read.

use mt_types::NoMemory;
use std::error::Error;
use std::fmt;

/// Why a text isn't read.
#[derive(Clone, Copy, Debug)]
pub enum SyntaxError {
    /// The text is no sentence.
    Bad,
    /// Out of memory.
    NoMemory,
}

impl fmt::Display for SyntaxError {
    fn fmt<W: fmt::Write>(&self, f: &mut fmt::Formatter<W>) -> fmt::Result {
        match self {
            SyntaxError::Bad => write!(f, "not a sentence"),
            SyntaxError::NoMemory => write!(f, "out of memory"),
        }
    }
}

impl Error for SyntaxError {}

impl From<NoMemory> for SyntaxError {
    ghost use Rattle.std.specs.Prelude.{◌≡◌};
    ghost use Rattle.mt_phrases.specs.declared.error.SyntaxError.TheVariants.{NoMemory};

    ghost from_gives = { λ _ error. error ≡ NoMemory };

    fn from(_error: NoMemory) -> SyntaxError {
        SyntaxError::NoMemory
    }
}
