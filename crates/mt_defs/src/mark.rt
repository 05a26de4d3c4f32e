//! Marks: where granules begin in a data file.

/// Where a granule begins (docs/FORMAT.md, "Marks"; ClickHouse: `MarkInCompressedFile`).
#[derive(Clone, Copy, Debug, PartialEq)]
pub struct Mark {
    /// A frame's offset in the data file, in bytes, or the file's length.
    pub offset: u64,
    /// The offset in that frame's payload, in bytes, at most its length.
    pub inner: u64,
}
