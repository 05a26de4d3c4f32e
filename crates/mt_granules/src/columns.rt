//! The values of a column in some rows, encoded.

ghost use Rattle.std.specs.Prelude.{◌≡◌, ◌<◌, [], ◌∷◌, All, length, IfOk, IsTrue};
ghost use Rattle.mt_types.specs.Profile.{is_profile};
ghost use Rattle.mt_defs.specs.Rows.{cell, column_values};
ghost use Rattle.mt_defs.specs.WrittenStreams.{written_streams};
ghost use Rattle.mt_codec.specs.Runs.{values_of};
ghost use Rattle.mt_granules.specs.CellColumns.{HasValues};

use mt_codec::encode_runs;
use mt_types::{List, NoMemory, Row, Ty, Value};
use std::alloc::Global;

/// The writer's substreams of a column over some rows (docs/FORMAT.md, "Substreams"). No value is copied.
pub fn encode_column(
    alloc: Global,
    ty: &Ty,
    column_index: usize,
    rows: &[Row],
) -> Result<List<List<u8>>, NoMemory>
    requires profile { IsTrue (is_profile ty.now) }
    requires values { HasValues ty.now column_index rows.now }
    ensures { IfOk result (λ streams. streams ≡ written_streams ty.now (column_values column_index rows.now)) }
{
    let cells = cells_of(alloc, column_index, rows)?;
    encode_runs(alloc, ty, &cells)
}

/// The values of a column, a run of one for each row.
fn cells_of<'a>(
    alloc: Global,
    column_index: usize,
    rows: &'a [Row],
) -> Result<Vec<&'a [Value]>, NoMemory>
    requires { All (λ row. column_index < length row) rows.now }
    ensures { IfOk result (λ cells. values_of cells.items ≡ column_values column_index rows.now) }
{
    let mut cells = Vec::with_capacity(alloc, rows.len())?;
    for row in rows {
        cells.push(cell_of(row, column_index))?;
    }
    Ok(cells)
}

fn cell_of(row: &Row, column_index: usize) -> &[Value]
    requires { column_index < length row.now }
    ensures { result.now ≡ cell row.now column_index ∷ [] }
{
    &row.as_slice()[column_index..column_index + 1]
}
