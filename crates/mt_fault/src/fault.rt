//! What can be wrong with a part.

use mt_types::List;
use std::error::Error;
use std::fmt;

/// Why a part stands for no rows (docs/FORMAT.md, "The first fault").
#[derive(Clone, Copy, Debug, PartialEq)]
pub enum Why {
    /// A file isn't there.
    Missing,
    /// A text file has another form.
    Syntax,
    /// columns.txt lists other columns than the definition's.
    Columns,
    /// Fewer than 25 bytes remain, or the file ends inside the payload.
    Cut,
    /// The compression method is not NONE.
    Method,
    /// A frame's two sizes don't suit each other, or the payload is empty.
    Sizes,
    /// A size, a count or a text is above its limit.
    TooLong,
    /// A file has another number of entries, or a length isn't in its shortest encoding.
    Length,
    /// Rows of marks don't sum to the count, or differ between files.
    Rows,
    /// Offsets or positions of marks fall.
    Order,
    /// A mark denotes no position, or another one than it must.
    Place,
    /// Bytes are missing.
    Short,
    /// Bytes are left.
    Over,
    /// A byte of a null map is neither 0 nor 1.
    NullByte,
    /// The first byte of a state is neither 0 nor 1.
    HasByte,
    /// A row is below the row before it.
    Sorted,
    /// A key of the primary index isn't its granule's.
    Key,
    /// A row has another partition value than the first.
    Partition,
    /// A file of the partition or of an index has other bytes than the rows'.
    Value,
    /// A projection doesn't stand for the rows.
    Projection,
    /// A file belongs to no part of this table.
    Stray,
}

impl fmt::Display for Why {
    fn fmt<W: fmt::Write>(&self, f: &mut fmt::Formatter<W>) -> fmt::Result {
        write!(f, "{self:?}")
    }
}

/// The first fault of a part, and where it is.
#[derive(Debug, Drop)]
pub struct Fault {
    /// The file's name below the part.
    pub file: List<u8>,
    /// The granule, from 0, where the fault is in one.
    pub granule: Option<u64>,
    /// The offset in the file in bytes, of a fault in its frames.
    pub at: Option<u64>,
    /// What is wrong there.
    pub why: Why,
}

impl fmt::Display for Fault {
    fn fmt<W: fmt::Write>(&self, f: &mut fmt::Formatter<W>) -> fmt::Result {
        write!(f, "{}", str::from_utf8(self.file.as_slice()).unwrap_or("?"))?;
        if let Some(granule) = self.granule {
            write!(f, " granule {granule}")?;
        }
        if let Some(at) = self.at {
            write!(f, " at {at}")?;
        }
        write!(f, ": {}", self.why)
    }
}

impl Error for Fault {}
