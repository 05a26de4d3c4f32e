//! The settings that a part's layout depends on.

/// The settings of a table that the writer goes by.
#[derive(Clone, Copy, Debug, PartialEq)]
pub struct Settings {
    /// `index_granularity`: at most so many rows a granule, from 1 to 1,048,576.
    pub granule_rows: u64,
    /// `index_granularity_bytes`: a granule ends once its payloads have so many bytes, from 1 to 2^30.
    pub granule_bytes: u64,
    /// `min_bytes_for_wide_part`: payloads of fewer bytes make a Compact part.
    pub wide_bytes: u64,
    /// `min_rows_for_wide_part`: fewer rows make a Compact part.
    pub wide_rows: u64,
}
