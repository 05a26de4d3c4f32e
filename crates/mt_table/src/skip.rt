//! Skip indexes (ClickHouse: data skipping indices).

use mt_types::List;

/// What an index keeps of the values of its granules.
#[derive(Clone, Copy, Debug, PartialEq)]
pub enum SkipKind {
    /// The least and the greatest value.
    Minmax,
    /// The distinct values, or nothing where there are more than this number of rows of them and it isn't 0.
    Set(u64),
}

/// A skip index over one column.
#[derive(Drop)]
pub struct Skip {
    /// Its name, in the names of its files.
    pub name: List<u8>,
    /// The column, by its place in the table from 0.
    pub column: u32,
    /// What an entry keeps.
    pub kind: SkipKind,
    /// How many granules one entry is over, from 1 to 1,048,576.
    pub granularity: u64,
}
