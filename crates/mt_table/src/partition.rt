//! The partition key.

/// One expression of the partition key.
#[derive(Clone, Copy, Debug, PartialEq)]
pub enum PartExpr {
    /// The value of a column, by its place in the table from 0.
    Plain(u32),
    /// `toYYYYMM` of a Date column, by its place: year times 100 plus month.
    Month(u32),
}
