//! The entries of a marks file.

use mt_defs::Mark;
use mt_types::List;

/// The most marks of an entry: as many as a table may have columns.
pub const MAX_PER_GRANULE: u64 = 256;

/// The entries of a marks file, one for each granule and one for the end (docs/FORMAT.md, "Marks";
/// ClickHouse: `MarksInCompressedFile`).
#[derive(Drop)]
pub struct Marks {
    /// How many marks an entry has, from 1 to `MAX_PER_GRANULE`: 1 in a `.mrk2` file, one per column
    /// in a `.mrk3` file.
    pub per_granule: u64,
    /// The marks of all entries in file order, `per_granule` for each number of `rows`.
    pub places: List<Mark>,
    /// The rows of each entry: each granule's, and 0 for the end.
    pub rows: List<u64>,
}
