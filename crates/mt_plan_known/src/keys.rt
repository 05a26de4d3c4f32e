//! The keys of primary.idx.

ghost use Rattle.std.specs.Prelude.{◌≡◌, ◌+◌, ◌≤◌};
ghost use Rattle.mt_table.specs.declared.limits.TheConstants.{MAX_ROWS};
ghost use Rattle.mt_defs.specs.Folder.{folder_of};
ghost use Rattle.mt_meta.specs.Definitions.{IsDefinition};
ghost use Rattle.mt_plan_known.specs.Finding.{Finds};
ghost use Rattle.mt_plan_known.specs.Known.{TellsKeys};

use mt_fault::{FileBytes, FileError};
use mt_files::bytes_of;
use mt_meta::read_keys;
use mt_names::INDEX_FILE;
use mt_table::PartDef;
use mt_types::{List, Row};
use std::alloc::Global;

/// The keys of a folder of so many granules.
pub(crate) fn read_index(
    alloc: Global,
    definition: &PartDef,
    granules: usize,
    files: &[FileBytes],
) -> Result<List<Row>, FileError>
    requires definition { IsDefinition definition.now }
    ensures { Finds (TellsKeys definition.now (folder_of files.now) (granules + 1)) result }
{
    let bytes = bytes_of(alloc, files, INDEX_FILE)?;
    read_keys(alloc, definition, granules as u64, bytes)
}
