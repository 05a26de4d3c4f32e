//! What rows leave of the limits on a part.

ghost use Rattle.std.specs.Prelude.{◌≡◌, ◌+◌, [], All, IfErr, IfOk, OnOk, length};
ghost use Rattle.mt_defs.specs.Rows.{RowFits, cell_count};
ghost use Rattle.mt_command.specs.Steps.{StepCausedBy, of_nothing};
ghost use Rattle.mt_merging.specs.Rooms.{LeaveRoom, have_room};

use crate::cells::room_after_rows;
use mt_command::{Status, What};
use mt_table::{MAX_CELLS, MAX_ROWS, Table};
use mt_types::Row;

/// What rows leave of the limits on a part.
#[derive(Clone, Copy)]
pub struct Room {
    /// Rows.
    pub rows: usize,
    /// Cells: rows times columns, and all array elements.
    pub cells: usize,
}

/// The room of a part that has no rows.
pub(crate) fn whole_room(_table: &Table) -> Room
    ensures { LeaveRoom _table.now [] result }
{
    Room {
        rows: MAX_ROWS,
        cells: MAX_CELLS,
    }
}

/// What rows leave of a room, or the limit that they pass.
pub(crate) fn room_after(table: &Table, room: Room, rows: &[Row]) -> Result<Room, Status>
    requires { All (RowFits table.now.columns) rows.now }
    ensures ok { OnOk result (have_room (length rows.now) (cell_count table.now.columns rows.now) room.rows room.cells ≡ Ok tt) }
    ensures err { IfErr result (λ status. have_room (length rows.now) (cell_count table.now.columns rows.now) room.rows room.cells ≡ Err status) }
    ensures rows { IfOk result (λ left. left.rows + length rows.now ≡ room.rows) }
    ensures cells { IfOk result (λ left. left.cells + cell_count table.now.columns rows.now ≡ room.cells) }
    ensures cause { StepCausedBy result of_nothing of_nothing }
{
    let Some(rows_left) = room.rows.checked_sub(rows.len()) else {
        return Err(Status::TooMuch {
            what: What::Rows,
            limit: MAX_ROWS as u64,
        });
    };
    match room_after_rows(rows, room.cells) {
        Some(cells) => Ok(Room {
            rows: rows_left,
            cells,
        }),
        None => Err(Status::TooMuch {
            what: What::Cells,
            limit: MAX_CELLS as u64,
        }),
    }
}
