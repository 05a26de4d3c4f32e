//! A query. A `u32` names a column by its place in the table, from 0.

use crate::cond::Cond;
use mt_types::{Agg, List};

/// What a query selects of a row, or of a group of rows.
#[derive(Clone, Copy)]
pub enum Item {
    /// A column.
    Column(u32),
    /// `count()`.
    Count,
    /// `sum`, `min` or `max` of a column.
    Of(Agg, u32),
}

/// A query over a table (docs/LANGUAGE.md, "Queries"; ClickHouse: `ASTSelectQuery`).
#[derive(Drop)]
pub struct Query {
    /// What it selects, at least one; for `*` all columns in the table's order.
    pub items: List<Item>,
    /// Which rows it is over: all where there is none.
    pub cond: Option<Cond>,
    /// The columns of GROUP BY; none where it isn't given.
    pub keys: List<u32>,
    /// The most rows of its result: all where there is none.
    pub limit: Option<u64>,
}
