//! The data and marks of columns.

ghost use Rattle.std.specs.Prelude.{◌≡◌, ◌*◌, ◌≤◌, length, All, IfOk, IsTrue};
ghost use Rattle.mt_types.specs.Profile.{is_profile};
ghost use Rattle.mt_table.specs.declared.limits.TheConstants.{MAX_CELLS, MAX_COLUMNS, MAX_ROWS};
ghost use Rattle.mt_defs.specs.Folder.{folder_of};
ghost use Rattle.mt_defs.specs.Granules.{AreGranules};
ghost use Rattle.mt_defs.specs.Rows.{RowFits};
ghost use Rattle.mt_definition.specs.DataReading.{data_reading};
ghost use Rattle.mt_fault.specs.Results.{Gives};

use mt_compact::read_compact;
use mt_fault::{FileBytes, FileError};
use mt_files::is_compact;
use mt_table::Column;
use mt_types::{List, Row};
use mt_wide::read_wide;
use std::alloc::Global;

/// The rows and granules of the columns' files, Wide or Compact.
pub(crate) fn read_data(
    alloc: Global,
    columns: &[Column],
    count: u64,
    files: &[FileBytes],
) -> Result<(List<Row>, List<u64>), FileError>
    requires some { 1 ≤ length columns.now }
    requires few { length columns.now ≤ MAX_COLUMNS }
    requires profile { All (λ column. IsTrue (is_profile column.ty)) columns.now }
    requires row { 1 ≤ count }
    requires rows { count ≤ MAX_ROWS }
    requires cells { count * length columns.now ≤ MAX_CELLS }
    ensures gives { Gives result (data_reading (folder_of files.now) count columns.now) }
    ensures fit { IfOk result (λ read. All (RowFits columns.now) read.0) }
    ensures many { IfOk result (λ read. length read.0 ≡ count) }
    ensures cut { IfOk result (λ read. AreGranules read.1 read.0) }
{
    if is_compact(files) {
        read_compact(alloc, columns, count, files)
    } else {
        read_wide(alloc, columns, count, files)
    }
}
