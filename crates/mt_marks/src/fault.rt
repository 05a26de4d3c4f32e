//! Why a file is no marks file.

ghost use Rattle.std.specs.Prelude.{◌≡◌};
ghost use Rattle.mt_marks.specs.declared.fault.MarksError.TheVariants as error;

use mt_fault::Why;
use mt_types::NoMemory;
use std::error::Error;
use std::fmt;

/// Why no marks were read.
#[derive(Clone, Copy, Debug, PartialEq)]
pub enum MarksError {
    /// The first broken rule, `Length`, `Rows`, `Order` or `Place`, and its entry from 0; a length has
    /// no entry.
    At { granule: Option<u64>, why: Why },
    /// Memory was refused.
    NoMemory,
}

impl fmt::Display for MarksError {
    fn fmt<W: fmt::Write>(&self, f: &mut fmt::Formatter<W>) -> fmt::Result {
        match self {
            MarksError::At {
                granule: Some(granule),
                why,
            } => write!(f, "marks of granule {granule}: {why:?}"),
            MarksError::At { granule: None, why } => write!(f, "marks: {why:?}"),
            MarksError::NoMemory => write!(f, "no memory"),
        }
    }
}

impl Error for MarksError {}

impl From<NoMemory> for MarksError {
    ghost from_gives = { λ _ e. e ≡ error.NoMemory };

    fn from(_error: NoMemory) -> MarksError {
        MarksError::NoMemory
    }
}
