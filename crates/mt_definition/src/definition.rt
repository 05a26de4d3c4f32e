//! The folder of a definition: of the part itself, or of a projection.

ghost use Rattle.std.specs.Prelude.{◌≡◌, ◌≢◌, ◌≤◌, [], length, All, IfOk};
ghost use Rattle.mt_table.specs.declared.limits.TheConstants.{MAX_ROWS};
ghost use Rattle.mt_defs.specs.Folder.{folder_of};
ghost use Rattle.mt_defs.specs.Granules.{AreGranules};
ghost use Rattle.mt_defs.specs.Rows.{ArePartRows, RowFits};
ghost use Rattle.mt_meta.specs.Definitions.{IsDefinition};
ghost use Rattle.mt_definition.specs.DefinitionReading.{definition_reading, stored_reading};
ghost use Rattle.mt_fault.specs.Results.{Gives};

use crate::accepted::Accepted;
use crate::cells::check_cells;
use crate::data::read_data;
use crate::primary_index::check_index;
use crate::sort_order::check_order;
use crate::whole_rows::whole_rows;
use mt_fault::{FileBytes, FileError};
use mt_files::{listed_columns, read_order, read_row_count};
use mt_table::PartDef;
use std::alloc::Global;

/// The rows and granules that a definition's folder holds, or its first fault (docs/FORMAT.md, "The first
/// fault").
pub fn read_definition(
    alloc: Global,
    definition: &PartDef,
    files: &[FileBytes],
) -> Result<Accepted, FileError>
    requires { IsDefinition definition.now }
    ensures gives { Gives result (definition_reading definition.now (folder_of files.now)) }
    ensures rows { IfOk result (λ accepted. ArePartRows definition.now accepted.rows) }
    ensures cut { IfOk result (λ accepted. AreGranules accepted.granules accepted.rows) }
{
    let accepted = read_stored(alloc, definition, files)?;
    check_cells(alloc, definition, &accepted)?;
    check_order(alloc, definition, files, &accepted)?;
    check_index(alloc, definition, files, &accepted)?;
    Ok(accepted)
}

/// The rows and granules of columns.txt, count.txt and the columns' files.
fn read_stored(
    alloc: Global,
    definition: &PartDef,
    files: &[FileBytes],
) -> Result<Accepted, FileError>
    requires { IsDefinition definition.now }
    ensures gives { Gives result (stored_reading definition.now (folder_of files.now)) }
    ensures some { IfOk result (λ accepted. accepted.rows ≢ []) }
    ensures few { IfOk result (λ accepted. length accepted.rows ≤ MAX_ROWS) }
    ensures fit { IfOk result (λ accepted. All (RowFits definition.now.columns) accepted.rows) }
    ensures cut { IfOk result (λ accepted. AreGranules accepted.granules accepted.rows) }
{
    let order = read_order(alloc, definition, files)?;
    let count = read_row_count(alloc, definition, files)?;
    let Ok(columns) = listed_columns(alloc, definition.columns.as_slice(), order.as_slice()) else {
        return Err(FileError::NoMemory);
    };
    let (rows, granules) = read_data(alloc, columns.as_slice(), count, files)?;
    match whole_rows(alloc, definition.columns.as_slice(), order.as_slice(), rows) {
        Ok(rows) => Ok(Accepted { rows, granules }),
        Err(_) => Err(FileError::NoMemory),
    }
}
