//! The names that files of every part have (docs/FORMAT.md, "Parts").

/// The list of the columns.
pub const COLUMNS_FILE: &[u8] = b"columns.txt";

/// The number of rows.
pub const COUNT_FILE: &[u8] = b"count.txt";

/// The primary key of each granule.
pub const INDEX_FILE: &[u8] = b"primary.idx";

/// The partition value, where the table has a partition key.
pub const PARTITION_FILE: &[u8] = b"partition.dat";

/// The values of all columns of a Compact part.
pub const DATA_FILE: &[u8] = b"data.bin";

/// The marks of all columns of a Compact part.
pub const MARKS_FILE: &[u8] = b"data.mrk3";
