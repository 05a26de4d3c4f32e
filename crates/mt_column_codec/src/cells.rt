//! Items of a fixed width: as many as are wanted are one slice of a substream.

ghost use Rattle.std.specs.Prelude.{◌≡◌, ◌+◌, ◌*◌, ◌<◌, ◌≤◌, IfOk, length, take, drop};
ghost use Rattle.mt_types.specs.Steps.{at};
ghost use Rattle.mt_cells.specs.Items.{OfCells, items_in, kind_in};
ghost use Rattle.mt_cells.specs.Kinds.{size_of};
ghost use Rattle.mt_codec.specs.ColumnReading.{items_from};
ghost use Rattle.mt_codec.specs.Cursor.{GivesItems};
ghost use Rattle.mt_column_codec.specs.FixedItems.{fixed_front};
ghost use Rattle.mt_column_codec.specs.Results.{as_values};

use mt_cells::{Cells, Items, Kind};
use mt_codec::{CodecError, CodecWhy};
use std::alloc::Global;

/// The items of a kind at the start of some bytes, so many, and what follows them. The memory that is
/// taken for them is the bytes that they have.
pub(crate) fn cells_in<'a>(
    alloc: Global,
    kind: Kind,
    stream: u64,
    count: u128,
    bytes: &'a [u8],
) -> Result<(Items, &'a [u8]), CodecError>
    requires { 1 ≤ size_of kind }
    ensures kind { IfOk result (λ read. kind_in read.0 ≡ OfCells kind) }
    ensures reads { GivesItems (as_values items_in result)
        (at stream (items_from (fixed_front kind) 0 count bytes.now)) }
    ensures many { IfOk result (λ read. length (items_in read.0) ≡ count) }
{
    let size = kind.size();
    let room = room_in(bytes, size);
    if (room as u128) < count {
        return Err(CodecError::At {
            stream,
            item: room as u64,
            why: CodecWhy::Short,
        });
    }
    let count = as_count(count, room);
    let (items, rest) = split_items(bytes, size, count);
    let mut cells = Cells::new(alloc, kind);
    cells.append_items(count, items)?;
    Ok((Items::Cells(cells), rest))
}

/// How many items of a size some bytes have.
fn room_in(bytes: &[u8], size: usize) -> usize
    requires { 1 ≤ size }
    ensures have { result * size ≤ length bytes.now }
    ensures no_more { length bytes.now < (result + 1) * size }
{
    bytes.len() / size
}

/// A count that is at most another.
fn as_count(count: u128, most: usize) -> usize
    requires { count ≤ most }
    ensures { result ≡ count }
{
    usize::try_from(count).unwrap_or(most)
}

/// The items of a size at the start of some bytes, so many, and what follows them.
fn split_items(bytes: &[u8], size: usize, count: usize) -> (&[u8], &[u8])
    requires { count * size ≤ length bytes.now }
    ensures items { result.0.now ≡ take (count * size) bytes.now }
    ensures rest { result.1.now ≡ drop (count * size) bytes.now }
{
    bytes.split_at(count * size)
}
