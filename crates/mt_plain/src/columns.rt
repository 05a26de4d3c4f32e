//! The data file and the marks file of a column.

ghost use Rattle.std.specs.Prelude.{◌≡◌, [], ◌∷◌, ◌++◌, IfOk, OnOk, IsTrue};
ghost use Rattle.mt_table.specs.Form.{uint64_column};
ghost use Rattle.mt_types.specs.Words.{is_name};
ghost use Rattle.mt_defs.specs.Marks.{entry_bytes};
ghost use Rattle.mt_defs.specs.WrittenColumns.{file, wide_column};
ghost use Rattle.mt_defs.specs.WrittenFrames.{mark_at};
ghost use Rattle.mt_plain.specs.NumberRows.{HasNumbers, IsStream, granule_frames};

use crate::frames::append_frames;
use crate::items::{append_items, append_u64};
use mt_fault::FileBytes;
use mt_types::{List, NoMemory, Row};
use std::alloc::Global;

/// What the two files of a column hold.
#[derive(Drop)]
struct Stream {
    data: List<u8>,
    marks: List<u8>,
}

/// Appends the two files of a `UInt64` column (docs/FORMAT.md, "Wide parts"). A name of a table text
/// stands in a file's name as it is.
pub(crate) fn append_column(
    alloc: Global,
    name: &[u8],
    column_index: usize,
    rows: &[Row],
    granules: &[u64],
    files: &mut Vec<FileBytes>,
) -> Result<(), NoMemory>
    requires name { IsTrue (is_name name.now) }
    requires numbers { HasNumbers column_index rows.now }
    ensures { OnOk result (files.new.items ≡
        files.old.items ++ wide_column rows.now granules.now (column_index, uint64_column name.now)) }
{
    let stream = stream_of(alloc, column_index, rows, granules)?;
    let Stream { data, marks } = stream;
    append_file(alloc, name, b".bin", data, files)?;
    append_file(alloc, name, b".mrk2", marks, files)
}

/// Appends a file whose name is of two parts.
pub(crate) fn append_file(
    alloc: Global,
    name: &[u8],
    ending: &[u8],
    bytes: List<u8>,
    files: &mut Vec<FileBytes>,
) -> Result<(), NoMemory>
    ensures { OnOk result (files.new.items ≡ files.old.items ++ file (name.now ++ ending.now) bytes ∷ []) }
{
    let mut name = List::of_bytes(alloc, name)?;
    name.append(ending)?;
    files.push(FileBytes { name, bytes })?;
    Ok(())
}

/// The frames of each granule, one after another, and an entry of the marks file for each of them and
/// for the end.
fn stream_of(
    alloc: Global,
    column_index: usize,
    rows: &[Row],
    granules: &[u64],
) -> Result<Stream, NoMemory>
    requires { HasNumbers column_index rows.now }
    ensures { IfOk result (λ stream. IsStream column_index granules.now rows.now stream.data stream.marks) }
{
    let mut data = List::new(alloc);
    let mut marks = List::new(alloc);
    let mut rest = rows;
    for count in granules {
        let (granule, after) = rest.split_at((*count as usize).min(rest.len()));
        append_entry(data.len(), *count, &mut marks)?;
        append_granule(alloc, column_index, granule, &mut data)?;
        rest = after;
    }
    append_entry(data.len(), 0, &mut marks)?;
    Ok(Stream { data, marks })
}

/// Appends an entry of a marks file: where a granule begins, and its rows (docs/FORMAT.md, "Marks").
fn append_entry(offset: usize, rows: u64, out: &mut List<u8>) -> Result<(), NoMemory>
    ensures { OnOk result (out.new ≡ out.old ++ entry_bytes (mark_at offset ∷ []) rows) }
{
    append_u64(offset as u64, out)?;
    append_u64(0, out)?;
    append_u64(rows, out)
}

/// Appends the frames of a granule.
fn append_granule(
    alloc: Global,
    column_index: usize,
    rows: &[Row],
    out: &mut List<u8>,
) -> Result<(), NoMemory>
    requires { HasNumbers column_index rows.now }
    ensures { OnOk result (out.new ≡ out.old ++ granule_frames column_index rows.now) }
{
    let mut payload = List::new(alloc);
    append_items(column_index, rows, &mut payload)?;
    append_frames(payload.as_slice(), out)
}
