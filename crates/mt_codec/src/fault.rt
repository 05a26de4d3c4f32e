//! Where the bytes of substreams are no serialization, and why.

ghost use Rattle.std.specs.Prelude.{◌≡◌};
ghost use Rattle.mt_codec.specs.declared.fault.CodecError.TheVariants as error;

use mt_item::CodecWhy;
use mt_types::NoMemory;
use std::error::Error;
use std::fmt;

/// Why no values were read.
#[derive(Clone, Copy, Debug, PartialEq)]
pub enum CodecError {
    /// The first fault: which substream, counted from 0; which item of it, counted from 0, or the
    /// number of its items where bytes follow the last one; and what is wrong.
    At {
        stream: u64,
        item: u64,
        why: CodecWhy,
    },
    /// Memory was refused.
    NoMemory,
}

impl fmt::Display for CodecError {
    fn fmt<W: fmt::Write>(&self, f: &mut fmt::Formatter<W>) -> fmt::Result {
        match self {
            CodecError::At { stream, item, why } => {
                write!(f, "item {item} of substream {stream}: {why}")
            }
            CodecError::NoMemory => write!(f, "out of memory"),
        }
    }
}

impl Error for CodecError {}

impl From<NoMemory> for CodecError {
    ghost from_gives = { λ _ e. e ≡ error.NoMemory };

    fn from(_error: NoMemory) -> CodecError {
        CodecError::NoMemory
    }
}
