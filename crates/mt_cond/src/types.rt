//! Intervals of values, boxes of rows, and masks. A `u32` names a column by its place in the table, from 0.

use mt_types::{Ty, Value};

/// Where an interval of values ends (docs/LANGUAGE.md, "Masks and covers"; ClickHouse: `Range`).
#[derive(Drop)]
pub enum End {
    /// Nowhere: a text may be as small, or as great, as any.
    Free,
    /// At this value, which is inside.
    At(Value),
    /// At this value, which is outside.
    Past(Value),
}

/// The values between two ends (ClickHouse: `Range`).
#[derive(Drop)]
pub struct Interval {
    /// The lower end.
    pub lo: End,
    /// The upper end.
    pub hi: End,
}

/// A column's interval. Some of these, of different columns, are a box: the rows whose values lie in them
/// (ClickHouse: `Hyperrectangle`).
#[derive(Drop)]
pub struct Side {
    /// The column.
    pub column: u32,
    /// The interval of its values.
    pub interval: Interval,
}

/// What a condition can be on the rows of a box, NULL aside (ClickHouse: `BoolMask`).
#[derive(Clone, Copy)]
pub struct MaskPair {
    /// It may be true on some.
    pub may_true: bool,
    /// It may be false on some.
    pub may_false: bool,
}

/// A column of a key.
#[derive(Drop)]
pub struct KeyColumn {
    /// The column.
    pub column: u32,
    /// Its type: an integer, FixedString, String or Date.
    pub ty: Ty,
}
