//! What a projection stores of some rows, and which stored rows stand for them.

ghost use Rattle.std.specs.Prelude.{◌≡◌, ◌↔◌, ◌<◌, length, IfOk, IsTrue};
ghost use Rattle.mt_defs.specs.Projections.{IsProjectionOf, is_projection_of};
ghost use Rattle.mt_defs.specs.Writer.{projection_rows};
ghost use Rattle.mt_proj.specs.Keys.{projection_at};

use crate::grouped::{project_grouped, stands_grouped};
use crate::normal::{project_normal, stands_normal};
use mt_table::{Projection, Table};
use mt_types::{List, NoMemory, Row};
use std::alloc::Global;

/// The rows that the writer stores in a projection of the table, by its place from 0 (docs/FORMAT.md,
/// "Projections"; ClickHouse: `ProjectionDescription::calculate`): its columns of each row, stably
/// sorted by its key; or a row per key, in key order, with its states.
pub fn project(
    alloc: Global,
    table: &Table,
    projection: usize,
    rows: &[Row],
) -> Result<List<Row>, NoMemory>
    requires there { projection < length table.now.projections }
    ensures written { IfOk result (λ made. made
        ≡ projection_rows table.now (projection_at table.now projection) rows.now) }
    ensures stands { IfOk result (λ made.
        IsProjectionOf table.now (projection_at table.now projection) rows.now made) }
{
    match &table.projections.as_slice()[projection] {
        Projection::Normal { columns, sort, .. } => {
            project_normal(alloc, table, columns.as_slice(), sort.as_slice(), rows)
        }
        Projection::Grouped { keys, aggs, .. } => {
            project_grouped(alloc, keys.as_slice(), aggs.as_slice(), rows)
        }
    }
}

/// Whether the stored rows of a projection stand for rows of the table: for a normal one they are its
/// columns of the rows, in any order; for an aggregate one they have the keys of the rows and no other,
/// and the states of each key, in one stored row or several, merge to the folds over its rows. Counts
/// and sums are taken modulo 2^64.
pub fn stands_for(
    alloc: Global,
    table: &Table,
    projection: usize,
    rows: &[Row],
    stored: &[Row],
) -> Result<bool, NoMemory>
    requires there { projection < length table.now.projections }
    ensures test { IfOk result (λ stands. stands
        ≡ is_projection_of table.now (projection_at table.now projection) rows.now stored.now) }
    ensures exact { IfOk result (λ stands. IsTrue stands
        ↔ IsProjectionOf table.now (projection_at table.now projection) rows.now stored.now) }
{
    match &table.projections.as_slice()[projection] {
        Projection::Normal { columns, .. } => {
            stands_normal(alloc, table, columns.as_slice(), rows, stored)
        }
        Projection::Grouped { keys, aggs, .. } => {
            stands_grouped(alloc, keys.as_slice(), aggs.as_slice(), rows, stored)
        }
    }
}
