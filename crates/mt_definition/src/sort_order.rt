//! Rows in the order of a sort key.

ghost use Rattle.std.specs.Prelude.{◌≡◌, ◌≤◌, ◌<◌, Some, None, length, IfSome};
ghost use Rattle.std.specs.Ordering.{is_lt};
ghost use Rattle.mt_defs.specs.Folder.{folder_of};
ghost use Rattle.mt_defs.specs.Rows.{key_cmp};
ghost use Rattle.mt_meta.specs.Definitions.{IsDefinition};
ghost use Rattle.mt_definition.specs.DefinitionReading.{sort_file, sorted_reading};
ghost use Rattle.mt_fault.specs.Results.{Gives};
ghost use Rattle.mt_definition.specs.RowsReading as defined;
ghost use Rattle.std.specs.Prelude.{IfOk};

use crate::accepted::Accepted;
use mt_fault::{FileBytes, FileError, Why, granule_fault};
use mt_files::is_compact;
use mt_names::{DATA_FILE, data_name};
use mt_table::PartDef;
use mt_types::{List, NoMemory, Row, Value, compare};
use std::alloc::Global;
use std::cmp::Ordering;

/// That no row is below the row before it.
pub(crate) fn check_order(
    alloc: Global,
    definition: &PartDef,
    files: &[FileBytes],
    accepted: &Accepted,
) -> Result<(), FileError>
    requires { IsDefinition definition.now }
    ensures { Gives result (sorted_reading definition.now (folder_of files.now) accepted.now) }
{
    let Some(row) = first_fall(definition.sort.as_slice(), accepted.rows.as_slice()) else {
        return Ok(());
    };
    let granule = granule_of(accepted.granules.as_slice(), row);
    match sort_file(alloc, definition, files) {
        Ok(file) => Err(granule_fault(alloc, file.as_slice(), granule, Why::Sorted)),
        Err(_) => Err(FileError::NoMemory),
    }
}

/// The file that is named where rows aren't in order.
fn sort_file(alloc: Global, definition: &PartDef, files: &[FileBytes]) -> Result<List<u8>, NoMemory>
    requires { IsDefinition definition.now }
    ensures { IfOk result (λ file. file ≡ sort_file definition.now (folder_of files.now)) }
{
    if is_compact(files) {
        return List::of_bytes(alloc, DATA_FILE);
    }
    let column = &definition.columns.as_slice()[definition.sort.as_slice()[0] as usize];
    data_name(alloc, column)
}

/// The first row that is below the row before it, by its index.
fn first_fall(sort: &[u32], rows: &[Row]) -> Option<usize>
    ensures { result ≡ defined.first_fall sort.now rows.now }
{
    let mut index = 1;
    while index < rows.len() {
        if compare_rows(sort, &rows[index], &rows[index - 1]).is_lt() {
            return Some(index);
        }
        index += 1;
    }
    None
}

/// Rows compare by the columns of the key, from left to right. A column that a row lacks counts as NULL.
fn compare_rows(key: &[u32], a: &Row, b: &Row) -> Ordering
    ensures { result ≡ key_cmp key.now a.now b.now }
{
    let mut rest = key;
    while let Some((column, after)) = rest.split_first() {
        let x = a.as_slice().get(*column as usize).unwrap_or(&Value::Null);
        let y = b.as_slice().get(*column as usize).unwrap_or(&Value::Null);
        let order = compare(x, y);
        if order != Ordering::Equal {
            return order;
        }
        rest = after;
    }
    Ordering::Equal
}

/// The granule of a row, by the row's index.
pub fn granule_of(granules: &[u64], row: usize) -> u64
    ensures { result ≡ defined.granule_of granules.now row }
{
    let mut before = row as u64;
    let mut granule = 0;
    for count in granules {
        if before < *count {
            return granule;
        }
        before -= *count;
        granule += 1;
    }
    granule
}
