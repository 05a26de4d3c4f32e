//! The count of cells.

ghost use Rattle.std.specs.Prelude.{◌≡◌};
ghost use Rattle.mt_tsv.specs.Cells.{cells_of, room_after};

use mt_types::Value;

/// What these values and the elements of their arrays leave of the room for cells, if they have room.
pub fn room_after(values: &[Value], room: usize) -> Option<usize>
    ensures { result ≡ room_after (cells_of values.now) room }
{
    let mut left = room.checked_sub(values.len())?;
    for value in values {
        if let Value::List(items) = value {
            left = room_after(items.as_slice(), left)?;
        }
    }
    Some(left)
}
