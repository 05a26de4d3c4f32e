//! Reading the files of a Wide part.

ghost use Rattle.std.specs.Prelude.{◌≡◌, [], ◌*◌, ◌<◌, ◌≤◌, length, map, sum, All, IfOk, IsTrue, slice_index_or};
ghost use Rattle.mt_types.specs.Profile.{is_profile};
ghost use Rattle.mt_table.specs.declared.limits.TheConstants.{MAX_CELLS, MAX_COLUMNS, MAX_ROWS};
ghost use Rattle.mt_defs.specs.Folder.{folder_of};
ghost use Rattle.mt_defs.specs.FileNames as defined;
ghost use Rattle.mt_defs.specs.Rows.{RowFits};
ghost use Rattle.mt_granules.specs.FileFaults.{in_order};
ghost use Rattle.mt_granules.specs.FileFolder.{indexed_folder};
ghost use Rattle.mt_fault.specs.Results.{Gives, Shows};
ghost use Rattle.mt_wide.specs.WideReading.{wide_rows_reading, wide_granules, wide_reading};

use crate::column::read_column;
use mt_fault::{FileBytes, FileError};
use mt_granules::{FileIndex, append_column, first_rows, read_granules};
use mt_names::{stream_names, with_ending};
use mt_table::Column;
use mt_types::{List, NoMemory, Row};
use std::alloc::Global;

/// The rows and granules of the files of a Wide part with these columns, in the order of columns.txt, and so
/// many rows (docs/FORMAT.md, "Wide parts"; ClickHouse: `MergeTreeReaderWide`). `AtFault` is the first fault
/// of the data and marks files in docs/FORMAT.md's order: column by column, of each substream the data file's
/// frames and then its marks, and after the column's files its values.
pub fn read_wide(
    alloc: Global,
    columns: &[Column],
    count: u64,
    files: &[FileBytes],
) -> Result<(List<Row>, List<u64>), FileError>
    requires some { 1 ≤ length columns.now }
    requires profile { All (λ column. IsTrue (is_profile column.ty)) columns.now }
    requires rows { count ≤ MAX_ROWS }
    ensures reads { Gives result (wide_reading (folder_of files.now) count columns.now) }
    ensures fit { IfOk result (λ read. All (RowFits columns.now) read.0) }
{
    let folder = FileIndex::of(alloc, files)?;
    let granules = first_granules(alloc, &folder, count, columns)?;
    let rows = read_columns(alloc, &folder, count, granules.as_slice(), columns)?;
    Ok((List::of(rows), granules))
}

/// The rows of the columns, so many, which stand in these granules. They are made once the first column was read.
fn read_columns(
    alloc: Global,
    folder: &FileIndex<'_>,
    count: u64,
    granules: &[u64],
    columns: &[Column],
) -> Result<Vec<Row>, FileError>
    requires some { 1 ≤ length columns.now }
    requires profile { All (λ column. IsTrue (is_profile column.ty)) columns.now }
    requires rows { count ≤ MAX_ROWS }
    requires all { sum granules.now ≡ count }
    ensures reads { Shows (λ rows. rows.items) result (wide_rows_reading (indexed_folder folder.now) granules.now count columns.now) }
    ensures fit { IfOk result (λ rows. All (RowFits columns.now) rows.items) }
{
    let Some((first, others)) = columns.split_first() else {
        unreachable!()
    };
    let first_values = read_column(alloc, folder, granules, first)?;
    let mut rows = first_rows(alloc, first_values, count, columns.len())?;
    for column in others {
        let values = read_column(alloc, folder, granules, column)?;
        append_column(values, &mut rows)?;
    }
    Ok(rows)
}

/// The rows of each granule, by the marks file of the first substream of the first column; they sum to the count.
pub fn first_granules(
    alloc: Global,
    folder: &FileIndex<'_>,
    count: u64,
    columns: &[Column],
) -> Result<List<u64>, FileError>
    requires some { 1 ≤ length columns.now }
    requires profile { All (λ column. IsTrue (is_profile column.ty)) columns.now }
    ensures reads { Gives result (wide_granules (indexed_folder folder.now) count columns.now) }
    ensures all { IfOk result (λ granules. sum granules ≡ count) }
{
    let name = first_stream(alloc, &columns[0])?;
    let data_name = with_ending(alloc, name.as_slice(), b".bin")?;
    let marks_name = with_ending(alloc, name.as_slice(), b".mrk2")?;
    let payloads = read_granules(
        alloc,
        folder,
        count,
        data_name.as_slice(),
        marks_name.as_slice(),
        1,
    )?;
    Ok(payloads.into_granules())
}

/// The name of the first substream of a column.
fn first_stream(alloc: Global, column: &Column) -> Result<List<u8>, NoMemory>
    requires { IsTrue (is_profile column.now.ty) }
    ensures { IfOk result (λ name. name ≡ slice_index_or (defined.stream_names column.now) 0 []) }
{
    let names = stream_names(alloc, column)?;
    match names.into_vec().into_iter().next() {
        Some(name) => Ok(name),
        None => Ok(List::new(alloc)),
    }
}
