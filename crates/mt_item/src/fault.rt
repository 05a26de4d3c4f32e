//! Why bytes are no item, and no serialization of a column.

ghost use Rattle.std.specs.Prelude.{◌≡◌};
ghost use Rattle.mt_item.specs.declared.fault.ItemError.TheVariants as error;

use mt_types::NoMemory;
use std::error::Error;
use std::fmt;

/// What is wrong with the bytes of a substream (docs/FORMAT.md, "Substreams").
#[derive(Clone, Copy, Debug, PartialEq)]
pub enum CodecWhy {
    /// Bytes are missing.
    Short,
    /// Bytes are left behind the last item.
    Over,
    /// A length or count is not in its shortest encoding, or is 2^64 or more.
    Length,
    /// A byte of a null map is above 1.
    NullByte,
    /// The first byte of a state of min or max is above 1.
    HasByte,
    /// A text is longer than `MAX_TEXT`, or an array than `MAX_ELEMENTS`.
    TooLong,
}

/// Why no item was read.
#[derive(Clone, Copy, Debug)]
pub enum ItemError {
    /// The bytes begin with no item of the type.
    Bad(CodecWhy),
    /// Memory was refused.
    NoMemory,
}

impl fmt::Display for CodecWhy {
    fn fmt<W: fmt::Write>(&self, f: &mut fmt::Formatter<W>) -> fmt::Result {
        match self {
            CodecWhy::Short => write!(f, "bytes are missing"),
            CodecWhy::Over => write!(f, "bytes are left"),
            CodecWhy::Length => write!(f, "a length is not in its shortest encoding"),
            CodecWhy::NullByte => write!(f, "a byte of a null map is above 1"),
            CodecWhy::HasByte => write!(f, "the first byte of a state is above 1"),
            CodecWhy::TooLong => write!(f, "a text or an array is too long"),
        }
    }
}

impl Error for CodecWhy {}

impl fmt::Display for ItemError {
    fn fmt<W: fmt::Write>(&self, f: &mut fmt::Formatter<W>) -> fmt::Result {
        match self {
            ItemError::Bad(why) => write!(f, "{why}"),
            ItemError::NoMemory => write!(f, "out of memory"),
        }
    }
}

impl Error for ItemError {}

impl From<NoMemory> for ItemError {
    ghost from_gives = { λ _ e. e ≡ error.NoMemory };

    fn from(_error: NoMemory) -> ItemError {
        ItemError::NoMemory
    }
}
