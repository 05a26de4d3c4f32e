//! The room for cells that rows leave.

ghost use Rattle.std.specs.Prelude.{◌≡◌};
ghost use Rattle.std.specs.List.{sum_by};
ghost use Rattle.mt_tsv.specs.Cells.{cells_of, room_after};

use mt_tsv::room_after;
use mt_types::Row;

/// What these rows leave of the room for cells, if they have room.
pub(crate) fn room_after_rows(rows: &[Row], room: usize) -> Option<usize>
    ensures { result ≡ room_after (sum_by cells_of rows.now) room }
{
    let mut left = room;
    for row in rows {
        left = room_after(row.as_slice(), left)?;
    }
    Some(left)
}
