//! Limits of table texts and of their rows, and the settings that stand where a text gives none.

/// The most columns of a table.
pub const MAX_COLUMNS: usize = 256;
/// The most skip indexes of a table.
pub const MAX_SKIPS: usize = 16;
/// The most projections of a table.
pub const MAX_PROJECTIONS: usize = 8;
/// The most columns of a key, and aggregates of a projection.
pub const MAX_KEY: usize = 16;
/// The most expressions of a partition key.
pub const MAX_PARTITION: usize = 4;
/// The most rows that `index_granularity` may ask for.
pub const MAX_GRANULE_ROWS: u64 = 1_048_576;
/// The most bytes that `index_granularity_bytes` may ask for: 1 GiB.
pub const MAX_GRANULE_BYTES: u64 = 1_073_741_824;
/// The most granules that an entry of a skip index is over.
pub const MAX_GRANULARITY: u64 = 1_048_576;
/// The most rows that `set(N)` may ask for.
pub const MAX_SET_ROWS: u64 = 4_194_304;

/// The most rows of a text of rows, of a part, and of a projection.
pub const MAX_ROWS: usize = 4_194_304;
/// The most cells of such rows: rows times columns, and the elements of all arrays in them. At 64
/// bytes a cell these are 1 GiB.
pub const MAX_CELLS: usize = 16_777_216;

/// `index_granularity` where none is given, in rows (ClickHouse: `MergeTreeSettings`).
pub const DEFAULT_GRANULE_ROWS: u64 = 8192;
/// `index_granularity_bytes` where none is given: 10 MiB.
pub const DEFAULT_GRANULE_BYTES: u64 = 10_485_760;
/// `min_bytes_for_wide_part` where none is given: 10 MiB.
pub const DEFAULT_WIDE_BYTES: u64 = 10_485_760;
/// `min_rows_for_wide_part` where none is given.
pub const DEFAULT_WIDE_ROWS: u64 = 0;
