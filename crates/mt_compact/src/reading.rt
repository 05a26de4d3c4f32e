//! Reading the two files of a Compact part.

ghost use Rattle.std.specs.Prelude.{◌≡◌, [], ◌*◌, ◌+◌, ◌<◌, ◌≤◌, length, map, sum, All, IfOk, IsTrue, slice_index_or};
ghost use Rattle.std.specs.List.{list_all};
ghost use Rattle.mt_types.specs.Fits.{fits_of};
ghost use Rattle.mt_types.specs.Profile.{is_profile};
ghost use Rattle.mt_table.specs.declared.limits.TheConstants.{MAX_CELLS, MAX_COLUMNS, MAX_ROWS};
ghost use Rattle.mt_defs.specs.Folder.{folder_of};
ghost use Rattle.mt_defs.specs.Rows.{RowFits};
ghost use Rattle.mt_granules.specs.ColumnRows.{all_values};
ghost use Rattle.mt_granules.specs.PayloadReading.{mark_count};
ghost use Rattle.mt_granules.specs.PayloadView.{payloads_in};
ghost use Rattle.mt_fault.specs.Results.{Gives, Shows};
ghost use Rattle.mt_compact.specs.CompactReading.{compact_column_reading, compact_reading, compact_payload_reading, compact_rows_reading};

use mt_codec::{CodecError, decode_front};
use mt_fault::{FileBytes, FileError, Why, granule_fault};
use mt_granules::{FileIndex, Payloads, append_column, codec_why, first_rows, read_granules};
use mt_table::Column;
use mt_types::{List, Row, Value};
use std::alloc::Global;

/// The names of the data and the marks file.
const DATA_NAME: &[u8] = b"data.bin";

const MARKS_NAME: &[u8] = b"data.mrk3";

/// The rows and granules of the files of a Compact part with these columns, in the order of columns.txt, and so
/// many rows (docs/FORMAT.md, "Compact parts"; ClickHouse: `MergeTreeReaderCompact`). `AtFault` is the first
/// fault of the two files in docs/FORMAT.md's order: the frames, the marks, and then column by column the values
/// of each granule.
pub fn read_compact(
    alloc: Global,
    columns: &[Column],
    count: u64,
    files: &[FileBytes],
) -> Result<(List<Row>, List<u64>), FileError>
    requires some { 1 ≤ length columns.now }
    requires few { length columns.now ≤ MAX_COLUMNS }
    requires profile { All (λ column. IsTrue (is_profile column.ty)) columns.now }
    requires rows { count ≤ MAX_ROWS }
    ensures reads { Gives result (compact_reading (folder_of files.now) count columns.now) }
    ensures fit { IfOk result (λ read. All (RowFits columns.now) read.0) }
{
    let folder = FileIndex::of(alloc, files)?;
    let width = columns.len() as u64;
    let payloads = read_granules(alloc, &folder, count, DATA_NAME, MARKS_NAME, width)?;
    let rows = read_columns(alloc, &payloads, count, columns)?;
    Ok((List::of(rows), payloads.into_granules()))
}

/// The rows of the columns, so many, whose payloads these are. They are made once the first column was read.
fn read_columns(
    alloc: Global,
    payloads: &Payloads<'_>,
    count: u64,
    columns: &[Column],
) -> Result<Vec<Row>, FileError>
    requires some { 1 ≤ length columns.now }
    requires profile { All (λ column. IsTrue (is_profile column.ty)) columns.now }
    requires rows { count ≤ MAX_ROWS }
    requires each { payloads.now.marks.per_granule ≡ length columns.now }
    requires all { sum (payloads_in payloads.now).granules ≡ count }
    ensures reads { Shows (λ rows. rows.items) result (compact_rows_reading (payloads_in payloads.now) count columns.now) }
    ensures fit { IfOk result (λ rows. All (RowFits columns.now) rows.items) }
{
    let width = columns.len();
    let Some((first, others)) = columns.split_first() else {
        unreachable!()
    };
    let first_values = read_column(alloc, payloads, width, 0, first)?;
    let mut rows = first_rows(alloc, first_values, count, width)?;
    for (other_index, column) in others.iter().enumerate() {
        let values = read_column(alloc, payloads, width, other_index + 1, column)?;
        append_column(values, &mut rows)?;
    }
    Ok(rows)
}

/// The values of the column of an index in each granule, of so many columns, or the first fault.
pub fn read_column(
    alloc: Global,
    payloads: &Payloads<'_>,
    width: usize,
    column_index: usize,
    column: &Column,
) -> Result<List<List<Value>>, FileError>
    requires profile { IsTrue (is_profile column.now.ty) }
    requires each { payloads.now.marks.per_granule ≡ width }
    requires index { column_index < width }
    requires few { sum (payloads_in payloads.now).granules ≤ MAX_ROWS }
    ensures reads { Gives result (compact_column_reading width (payloads_in payloads.now) (column_index, column.now)) }
    ensures many { IfOk result (λ values. map (λ here. length here) values ≡ (payloads_in payloads.now).granules) }
    ensures fit { IfOk result (λ values. IsTrue (list_all (fits_of column.now.ty) (all_values values))) }
{
    let granules = payloads.granules();
    let mut values = List::with_capacity(alloc, granules.len())?;
    for (granule, rows) in granules.iter().enumerate() {
        let index = granule * width + column_index;
        values.push(read_granule(alloc, payloads, index, column, granule as u64, *rows)?)?;
    }
    Ok(values)
}

/// A column's values in a granule of so many rows, of the payload of an index.
fn read_granule(
    alloc: Global,
    payloads: &Payloads<'_>,
    index: usize,
    column: &Column,
    granule: u64,
    rows: u64,
) -> Result<List<Value>, FileError>
    requires profile { IsTrue (is_profile column.now.ty) }
    requires few { rows ≤ MAX_ROWS }
    requires index { index < mark_count payloads.now.marks }
    ensures reads { Gives result (compact_payload_reading column.now granule rows
        (slice_index_or (payloads_in payloads.now).payloads index [])) }
    ensures many { IfOk result (λ values. length values ≡ rows) }
    ensures fit { IfOk result (λ values. IsTrue (list_all (fits_of column.now.ty) values)) }
{
    let payload = payloads.payload(alloc, index)?;
    read_payload(alloc, column, payload.as_slice(), granule, rows)
}

/// A column's values in a granule of so many rows, which take all of its payload.
fn read_payload(
    alloc: Global,
    column: &Column,
    payload: &[u8],
    granule: u64,
    rows: u64,
) -> Result<List<Value>, FileError>
    requires profile { IsTrue (is_profile column.now.ty) }
    requires few { rows ≤ MAX_ROWS }
    ensures reads { Gives result (compact_payload_reading column.now granule rows payload.now) }
    ensures many { IfOk result (λ values. length values ≡ rows) }
    ensures fit { IfOk result (λ values. IsTrue (list_all (fits_of column.now.ty) values)) }
{
    match decode_front(alloc, &column.ty, rows, payload) {
        Ok((values, used)) => {
            if used < payload.len() {
                return Err(granule_fault(alloc, DATA_NAME, granule, Why::Over));
            }
            Ok(values)
        }
        Err(CodecError::At { why, .. }) => {
            Err(granule_fault(alloc, DATA_NAME, granule, codec_why(why)))
        }
        Err(CodecError::NoMemory) => Err(FileError::NoMemory),
    }
}
