//! columns.txt and count.txt.

ghost use Rattle.std.specs.Prelude.{◌≡◌, ◌*◌, ◌≤◌, length, IfOk, IsTrue};
ghost use Rattle.mt_table.specs.declared.limits.TheConstants.{MAX_CELLS, MAX_COLUMNS, MAX_ROWS};
ghost use Rattle.mt_defs.specs.Folder.{folder_of};
ghost use Rattle.mt_defs.specs.Metadata.{may_list};
ghost use Rattle.mt_files.specs.PartTexts.{count_why, order_reading, row_count_reading};
ghost use Rattle.mt_fault.specs.Results.{Gives};

use crate::files::bytes_of;
use mt_fault::{FileBytes, FileError, Why, file_fault};
use mt_meta::{CountWhy, counts_are_read, only_lists_are_read, read_columns, read_count};
use mt_names::{COLUMNS_FILE, COUNT_FILE};
use mt_table::PartDef;
use mt_types::List;
use std::alloc::Global;

/// The columns that the folder lists, in the order of its files, by their places in the definition.
pub fn read_order(
    alloc: Global,
    definition: &PartDef,
    files: &[FileBytes],
) -> Result<List<u32>, FileError>
    requires { length definition.now.columns ≤ MAX_COLUMNS }
    ensures gives { Gives result (order_reading definition.now (folder_of files.now)) }
    ensures listed { IfOk result (λ order. IsTrue (may_list definition.now.columns definition.now.must order)) }
{
    let text = bytes_of(alloc, files, COLUMNS_FILE)?;
    only_lists_are_read();
    read_columns(
        alloc,
        definition.columns.as_slice(),
        definition.must.as_slice(),
        text,
    )
}

/// The rows of the folder.
pub fn read_row_count(
    alloc: Global,
    definition: &PartDef,
    files: &[FileBytes],
) -> Result<u64, FileError>
    requires some { 1 ≤ length definition.now.columns }
    requires few { length definition.now.columns ≤ MAX_COLUMNS }
    ensures gives { Gives result (row_count_reading definition.now (folder_of files.now)) }
    ensures some { IfOk result (λ count. 1 ≤ count) }
    ensures rows { IfOk result (λ count. count ≤ MAX_ROWS) }
    ensures cells { IfOk result (λ count. count * length definition.now.columns ≤ MAX_CELLS) }
{
    let text = bytes_of(alloc, files, COUNT_FILE)?;
    counts_are_read();
    match read_count(text, definition.columns.len() as u64) {
        Ok(count) => Ok(count),
        Err(CountWhy::Syntax) => Err(file_fault(alloc, COUNT_FILE, Why::Syntax)),
        Err(CountWhy::TooLong) => Err(file_fault(alloc, COUNT_FILE, Why::TooLong)),
    }
}
