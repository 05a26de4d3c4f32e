//! The limit on cells.

ghost use Rattle.std.specs.Prelude.{◌≡◌, ◌≤◌, ◌*◌, ◌+◌, nat_le, length};
ghost use Rattle.std.specs.List.{sum_by};
ghost use Rattle.mt_table.specs.Rows.{element_count};
ghost use Rattle.mt_table.specs.declared.limits.TheConstants.{MAX_COLUMNS, MAX_ROWS};
ghost use Rattle.mt_definition.specs.Cells.{room_after};
ghost use Rattle.mt_definition.specs.DefinitionReading.{cells_reading};
ghost use Rattle.mt_fault.specs.Results.{Gives};

use crate::accepted::Accepted;
use mt_fault::{FileError, Why, file_fault};
use mt_names::COUNT_FILE;
use mt_table::{MAX_CELLS, PartDef};
use mt_types::{Row, Value};
use std::alloc::Global;

/// The limit on cells, arrays' elements included.
pub(crate) fn check_cells(
    alloc: Global,
    definition: &PartDef,
    accepted: &Accepted,
) -> Result<(), FileError>
    requires few { length definition.now.columns ≤ MAX_COLUMNS }
    requires rows { length accepted.now.rows ≤ MAX_ROWS }
    ensures { Gives result (cells_reading definition.now accepted.now) }
{
    let rows = accepted.rows.as_slice();
    match room_after_rows(
        rows,
        MAX_CELLS as usize,
        rows.len() * definition.columns.len(),
    ) {
        Some(_) => Ok(()),
        None => Err(file_fault(alloc, COUNT_FILE, Why::TooLong)),
    }
}

/// What so many values and the elements of their arrays leave of the room for cells, if they have room.
fn room_after_rows(rows: &[Row], room: usize, values: usize) -> Option<usize>
    ensures { result ≡ room_after (values + sum_by (λ row. sum_by element_count row) rows.now) room }
{
    let mut left = room.checked_sub(values)?;
    for row in rows {
        left = room_after_elements(row.as_slice(), left)?;
    }
    Some(left)
}

/// What the elements of some values leave of the room for cells, if they have room.
fn room_after_elements(values: &[Value], room: usize) -> Option<usize>
    ensures { result ≡ room_after (sum_by element_count values.now) room }
{
    let mut left = room;
    for value in values {
        if let Value::List(items) = value {
            left = left.checked_sub(items.len())?;
            left = room_after_elements(items.as_slice(), left)?;
        }
    }
    Some(left)
}
