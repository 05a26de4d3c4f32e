//! Skip indexes: whether each entry is the one of its rows.

ghost use Rattle.std.specs.Prelude.{◌≡◌, ◌*◌, ◌<◌, ◌≤◌, ◌^◌, All, IfOk, IsTrue, length, option_map, take, sum};
ghost use Rattle.std.specs.List.{zip};
ghost use Rattle.mt_table.specs.declared.limits.TheConstants.{MAX_ROWS};
ghost use Rattle.mt_defs.specs.Folder.{folder_of};
ghost use Rattle.mt_defs.specs.Granules.{AreGranules, granule_rows};
ghost use Rattle.mt_defs.specs.Metadata.{column_at};
ghost use Rattle.mt_defs.specs.Part.{is_compact};
ghost use Rattle.mt_defs.specs.Rows.{RowFits, cell, column_values};
ghost use Rattle.mt_defs.specs.SkipIndexes.{summarizes, skip_data_name};
ghost use Rattle.mt_item.specs.ItemTypes.{has_items};
ghost use Rattle.mt_skip.specs.Items.{AllFit};
ghost use Rattle.mt_files.specs.SkipRules.{HasSkips, IsSkip};
ghost use Rattle.mt_check.specs.FolderChecks.{each, entries_checks, index_checks, skip_checks};
ghost use Rattle.mt_fault.specs.Faults.{granule_fault};
ghost use Rattle.mt_fault.specs.Results.{Gives};
ghost use Rattle.mt_fault.specs.Results.{IsFault};
ghost use Rattle.mt_check.specs.RowGroups.{group_sizes};
ghost use Rattle.mt_files.specs.SkipMarks.{IsFirstEntry, pieces_at};

use mt_definition::Accepted;
use mt_fault::{FileBytes, FileError, Why, granule_fault};
use mt_files::{SkipEntries, has_files, is_compact, read_entries};
use mt_names::skip_data_name;
use mt_skip::agrees;
use mt_table::{Skip, Table};
use mt_types::{List, NoMemory, Row, Ty, Value};
use std::alloc::Global;

/// That the files of each skip index that is there are those of the rows.
pub(crate) fn check_skips(
    alloc: Global,
    table: &Table,
    files: &[FileBytes],
    accepted: &Accepted,
) -> Result<(), FileError>
    requires skips { HasSkips table.now }
    requires few { length accepted.now.rows ≤ MAX_ROWS }
    requires fit { All (RowFits table.now.columns) accepted.now.rows }
    requires cut { AreGranules accepted.now.granules accepted.now.rows }
    ensures { Gives result (each (skip_checks table.now (folder_of files.now) accepted.now) table.now.skips) }
{
    let compact = is_compact(files);
    for skip in table.skips.as_slice() {
        check_skip(alloc, table, files, compact, accepted, skip)?;
    }
    Ok(())
}

/// That the files of a skip index are those of the rows, if it is there.
#[tactic(auto, using(crate::proofs::SkipLemmas::index_there, crate::proofs::SkipLemmas::index_absent))]
fn check_skip(
    alloc: Global,
    table: &Table,
    files: &[FileBytes],
    compact: bool,
    accepted: &Accepted,
    skip: &Skip,
) -> Result<(), FileError>
    requires layout { compact ≡ is_compact (folder_of files.now) }
    requires skip { IsSkip table.now.columns skip.now }
    requires few { length accepted.now.rows ≤ MAX_ROWS }
    requires fit { All (RowFits table.now.columns) accepted.now.rows }
    requires cut { AreGranules accepted.now.granules accepted.now.rows }
    ensures { Gives result (skip_checks table.now (folder_of files.now) accepted.now skip.now) }
{
    match has_files(alloc, files, compact, skip) {
        Ok(true) => check_index(alloc, table, files, compact, accepted, skip),
        Ok(false) => Ok(()),
        Err(_) => Err(FileError::NoMemory),
    }
}

/// That the files of a skip index are those of the rows.
fn check_index(
    alloc: Global,
    table: &Table,
    files: &[FileBytes],
    compact: bool,
    accepted: &Accepted,
    skip: &Skip,
) -> Result<(), FileError>
    requires layout { compact ≡ is_compact (folder_of files.now) }
    requires skip { IsSkip table.now.columns skip.now }
    requires few { length accepted.now.rows ≤ MAX_ROWS }
    requires fit { All (RowFits table.now.columns) accepted.now.rows }
    requires cut { AreGranules accepted.now.granules accepted.now.rows }
    ensures { Gives result (index_checks table.now (folder_of files.now) accepted.now skip.now) }
{
    let Ok(sizes) = group_sizes(alloc, skip.granularity, accepted.granules.as_slice()) else {
        return Err(FileError::NoMemory);
    };
    let entries = read_entries(alloc, files, compact, skip, sizes.len())?;
    let ty = &table.columns.as_slice()[skip.column as usize].ty;
    check_entries(
        alloc,
        skip,
        ty,
        sizes.as_slice(),
        accepted.rows.as_slice(),
        &entries,
    )
}

/// How many rows each entry is over.
fn group_sizes(alloc: Global, per_entry: u64, granules: &[u64]) -> Result<List<u64>, NoMemory>
    requires some { 1 ≤ per_entry }
    requires small { sum granules.now < 2 ^ 64 }
    ensures { IfOk result (λ sizes. sizes ≡ group_sizes per_entry (length granules.now) granules.now) }
{
    let mut sizes = List::new(alloc);
    let mut rest = granules;
    while !rest.is_empty() {
        let (group, after) = rest.split_at(rest.len().min(per_entry as usize));
        sizes.push(rows_of(group))?;
        rest = after;
    }
    Ok(sizes)
}

/// The rows of some granules together.
fn rows_of(granules: &[u64]) -> u64
    requires { sum granules.now < 2 ^ 64 }
    ensures { result ≡ sum granules.now }
{
    granules.iter().sum::<u64>()
}

/// That each entry is the one of its rows; groups of rows have these sizes.
fn check_entries(
    alloc: Global,
    skip: &Skip,
    ty: &Ty,
    sizes: &[u64],
    rows: &[Row],
    entries: &SkipEntries,
) -> Result<(), FileError>
    requires items { IsTrue (has_items ty.now) }
    requires fit { AllFit ty.now (column_values skip.now.column rows.now) }
    requires cut { sum sizes.now ≡ length rows.now }
    requires small { length sizes.now * skip.now.granularity < 2 ^ 64 }
    ensures { Gives result (entries_checks skip.now ty.now 0 (zip (granule_rows sizes.now rows.now)
        (pieces_at entries.now.payload entries.now.positions))) }
{
    let mut rest = rows;
    let mut ahead = entries.positions.as_slice();
    for (index, size) in sizes.iter().enumerate() {
        let (group, after) = rest.split_at(*size as usize);
        let Some((entry, later)) = first_entry(entries.payload.as_slice(), ahead) else {
            return Ok(());
        };
        match is_entry_of(alloc, skip, ty, group, entry) {
            Ok(true) => {}
            Ok(false) => return Err(value_fault(alloc, skip, index as u64 * skip.granularity)),
            Err(_) => return Err(FileError::NoMemory),
        }
        rest = after;
        ahead = later;
    }
    Ok(())
}

/// The fault of an entry, whose first granule this is.
fn value_fault(alloc: Global, skip: &Skip, granule: u64) -> FileError
    ensures { IsFault (granule_fault (skip_data_name skip.now) granule Why.Value) result }
{
    match skip_data_name(alloc, skip) {
        Ok(file) => granule_fault(alloc, file.as_slice(), granule, Why::Value),
        Err(_) => FileError::NoMemory,
    }
}

/// The first of the entries that begin at some positions, and where the others begin.
fn first_entry<'a>(payload: &'a [u8], positions: &'a [u64]) -> Option<(&'a [u8], &'a [u64])>
    ensures { IsFirstEntry payload.now positions.now (option_map (λ first. (first.0.now, first.1.now)) result) }
{
    let (position, later) = positions.split_first()?;
    let (_, rest) = payload.split_at(payload.len().min(*position as usize));
    let entry = match later.first() {
        Some(next) => first_bytes(rest, next.saturating_sub(*position) as usize),
        None => rest,
    };
    Some((entry, later))
}

/// The first so many bytes, or all where there are fewer.
fn first_bytes(bytes: &[u8], count: usize) -> &[u8]
    ensures { result.now ≡ take count bytes.now }
{
    let (front, _) = bytes.split_at(bytes.len().min(count));
    front
}

/// Whether an entry is the one of some rows.
fn is_entry_of(
    alloc: Global,
    skip: &Skip,
    ty: &Ty,
    rows: &[Row],
    entry: &[u8],
) -> Result<bool, NoMemory>
    requires items { IsTrue (has_items ty.now) }
    requires fit { AllFit ty.now (column_values skip.now.column rows.now) }
    ensures { IfOk result (λ is. is
        ≡ summarizes skip.now.kind ty.now (column_values skip.now.column rows.now) entry.now) }
{
    let values = column_of(alloc, skip.column, rows)?;
    agrees(alloc, skip, ty, values.as_slice(), entry)
}

/// A copy of the values of a column.
fn column_of(alloc: Global, column: u32, rows: &[Row]) -> Result<List<Value>, NoMemory>
    ensures { IfOk result (λ values. values ≡ column_values column rows.now) }
{
    let mut values = List::with_capacity(alloc, rows.len())?;
    for row in rows {
        values.push(copied_cell(alloc, column, row)?)?;
    }
    Ok(values)
}

/// A copy of a row's value in a column. A column that a row lacks counts as NULL.
fn copied_cell(alloc: Global, column: u32, row: &Row) -> Result<Value, NoMemory>
    ensures { IfOk result (λ copied. copied ≡ cell row.now column) }
{
    match row.as_slice().get(column as usize) {
        Some(value) => value.copy(alloc),
        None => Ok(Value::Null),
    }
}
