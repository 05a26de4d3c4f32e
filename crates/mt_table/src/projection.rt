//! Projections: what else a part stores of its rows.

use mt_types::{Agg, List};

/// An aggregate of a projection.
#[derive(Clone, Copy, Debug, PartialEq)]
pub enum Aggregate {
    /// `count()`.
    Count,
    /// `sum`, `min` or `max` of a column, by its place in the table from 0.
    Of(Agg, u32),
}

/// A projection of a table. Columns are named by their places in the table, from 0.
#[derive(Drop)]
pub enum Projection {
    /// Some columns of all rows, in an order of its own.
    Normal {
        name: List<u8>,
        columns: List<u32>,
        sort: List<u32>,
    },
    /// States of aggregates for each key.
    Grouped {
        name: List<u8>,
        keys: List<u32>,
        aggs: List<Aggregate>,
    },
}
