//! Whether the projections of rows are within the limit on cells.

ghost use Rattle.std.specs.Prelude.{◌≡◌, ◌<◌, ◌≤◌, ◌*◌, All, IfOk, length, nat_le};
ghost use Rattle.mt_table.specs.declared.limits.TheConstants.{MAX_CELLS};
ghost use Rattle.mt_table.specs.Stored.{projection_at};
ghost use Rattle.mt_defs.specs.Rows.{RowFits, cell_count};
ghost use Rattle.mt_command.specs.Status.{GivesOutcome};
ghost use Rattle.mt_command.specs.Steps.{StepCausedBy, of_nothing};
ghost use Rattle.mt_command.specs.Targets.{few_cells, has_many_cells};

use crate::status::{Status, What};
use mt_proj::project;
use mt_table::{MAX_CELLS, Projection, Table};
use mt_types::{NoMemory, Row};
use std::alloc::Global;

/// Refuses rows of which a projection has more cells than a part may have.
pub fn few_cells(alloc: Global, table: &Table, rows: &[Row]) -> Result<(), Status>
    requires fit { All (RowFits table.now.columns) rows.now }
    requires few { cell_count table.now.columns rows.now ≤ MAX_CELLS }
    ensures gives { GivesOutcome result (few_cells table.now rows.now) }
    ensures cause { StepCausedBy result of_nothing of_nothing }
{
    for projection in 0..table.projections.len() {
        match has_many_cells(alloc, table, projection, rows) {
            Ok(false) => {}
            Ok(true) => {
                return Err(Status::TooMuch {
                    what: What::Cells,
                    limit: MAX_CELLS as u64,
                });
            }
            Err(_) => return Err(Status::NoMemory),
        }
    }
    Ok(())
}

/// Whether a projection has more cells than a part may have. One of some columns has no more than the
/// rows; the rows of one of aggregates are counted only where they may be too many.
fn has_many_cells(
    alloc: Global,
    table: &Table,
    projection: usize,
    rows: &[Row],
) -> Result<bool, NoMemory>
    requires there { projection < length table.now.projections }
    requires fit { All (RowFits table.now.columns) rows.now }
    requires few { cell_count table.now.columns rows.now ≤ MAX_CELLS }
    ensures { IfOk result (λ many. many
        ≡ has_many_cells table.now rows.now (projection_at table.now projection)) }
{
    match &table.projections.as_slice()[projection] {
        Projection::Normal { .. } => Ok(false),
        Projection::Grouped { keys, aggs, .. } => {
            let columns = keys.len() + aggs.len();
            if are_few(rows.len(), columns) {
                return Ok(false);
            }
            let stored = project(alloc, table, projection, rows)?;
            Ok(!are_few(stored.len(), columns))
        }
    }
}

/// Whether rows of so many columns without arrays are within the limit on cells.
fn are_few(rows: usize, columns: usize) -> bool
    ensures { result ≡ nat_le (rows * columns) MAX_CELLS }
{
    rows.saturating_mul(columns) <= MAX_CELLS
}
