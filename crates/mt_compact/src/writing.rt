//! Writing the files of a Compact part.

ghost use Rattle.std.specs.Prelude.{◌≡◌, ◌≤◌, ◌++◌, ℕ, List as Seq, length, All, IfOk, IsTrue, OnOk};
ghost use Rattle.std.specs.List.{concat, flat_map};
ghost use Rattle.mt_types.specs.Profile.{is_profile};
ghost use Rattle.mt_table.specs.declared.limits.TheConstants.{MAX_COLUMNS};
ghost use Rattle.mt_defs.specs.Granules.{AreGranules, granule_rows};
ghost use Rattle.mt_defs.specs.Rows.{RowFits, column_values};
ghost use Rattle.mt_defs.specs.WrittenColumns.{compact_files, compact_frames};
ghost use Rattle.mt_defs.specs.WrittenStreams.{written_streams};
ghost use Rattle.mt_granules.specs.CellColumns.{HasValues};
ghost use Rattle.mt_granules.specs.DataFiles.{data_file_of};

use mt_fault::FileBytes;
use mt_granules::{DataFile, encode_column};
use mt_table::Column;
use mt_types::{List, NoMemory, Row};
use std::alloc::Global;

/// The data and the marks file of rows that stand in these granules (docs/FORMAT.md, "Compact parts";
/// ClickHouse: `MergeTreeDataPartWriterCompact`).
pub fn write_compact(
    alloc: Global,
    columns: &[Column],
    rows: &[Row],
    granules: &[u64],
) -> Result<List<FileBytes>, NoMemory>
    requires some { 1 ≤ length columns.now }
    requires few { length columns.now ≤ MAX_COLUMNS }
    requires profile { All (λ column. IsTrue (is_profile column.ty)) columns.now }
    requires fit { All (RowFits columns.now) rows.now }
    requires cut { AreGranules granules.now rows.now }
    ensures { IfOk result (λ files. files ≡ compact_files columns.now rows.now granules.now) }
{
    let unfinished = data_of(alloc, columns, rows, granules)?;
    let written = unfinished.finish(alloc, columns.len(), granules)?;
    let mut files = List::with_capacity(alloc, 2)?;
    files.push(FileBytes {
        name: List::of_bytes(alloc, b"data.bin")?,
        bytes: written.bytes,
    })?;
    files.push(FileBytes {
        name: List::of_bytes(alloc, b"data.mrk3")?,
        bytes: written.marks,
    })?;
    Ok(files)
}

/// The data file.
fn data_of(
    alloc: Global,
    columns: &[Column],
    rows: &[Row],
    granules: &[u64],
) -> Result<DataFile, NoMemory>
    requires profile { All (λ column. IsTrue (is_profile column.ty)) columns.now }
    requires fit { All (RowFits columns.now) rows.now }
    requires cut { AreGranules granules.now rows.now }
    ensures { IfOk result (λ written. written ≡
        data_file_of (flat_map (compact_frames columns.now) (granule_rows granules.now rows.now))) }
{
    let marks = columns.len().saturating_mul(granules.len());
    let mut file = DataFile::with_capacity(alloc, 0, marks)?;
    let mut rest = rows;
    for count in granules {
        let (granule, after) = rest.split_at(*count as usize);
        append_granule(alloc, columns, granule, &mut file)?;
        rest = after;
    }
    Ok(file)
}

/// Appends a granule: the frames of each column.
fn append_granule(
    alloc: Global,
    columns: &[Column],
    rows: &[Row],
    file: &mut DataFile,
) -> Result<(), NoMemory>
    requires profile { All (λ column. IsTrue (is_profile column.ty)) columns.now }
    requires fit { All (RowFits columns.now) rows.now }
    ensures { OnOk result ((runs : Seq (Seq ℕ)) → file.old ≡ data_file_of runs
        → file.new ≡ data_file_of (runs ++ compact_frames columns.now rows.now)) }
{
    for (column_index, column) in columns.iter().enumerate() {
        let payload = column_payload(alloc, column, column_index, rows)?;
        file.put(alloc, payload.as_slice())?;
    }
    Ok(())
}

/// A column's substreams over some rows, one after another.
fn column_payload(
    alloc: Global,
    column: &Column,
    column_index: usize,
    rows: &[Row],
) -> Result<List<u8>, NoMemory>
    requires profile { IsTrue (is_profile column.now.ty) }
    requires values { HasValues column.now.ty column_index rows.now }
    ensures { IfOk result (λ payload. payload ≡
        concat (written_streams column.now.ty (column_values column_index rows.now))) }
{
    let streams = encode_column(alloc, &column.ty, column_index, rows)?;
    joined(alloc, streams.as_slice())
}

/// Some substreams, one after another.
fn joined(alloc: Global, streams: &[List<u8>]) -> Result<List<u8>, NoMemory>
    ensures { IfOk result (λ payload. payload ≡ concat streams.now) }
{
    let mut payload = List::new(alloc);
    for stream in streams {
        payload.append(stream.as_slice())?;
    }
    Ok(payload)
}
