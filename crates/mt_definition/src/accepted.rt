//! What a folder stands for.

use mt_types::{List, Row};

/// The rows for which a part stands, and their granules.
#[derive(Drop)]
pub struct Accepted {
    /// The rows, in key order, each with the table's columns in their order.
    pub rows: List<Row>,
    /// The rows of each granule, at least 1.
    pub granules: List<u64>,
}
