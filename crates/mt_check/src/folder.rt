//! The files of a part's folder, checked.

ghost use Rattle.std.specs.Prelude.{◌≡◌, length, IfOk};
ghost use Rattle.mt_defs.specs.Folder.{folder_of};
ghost use Rattle.mt_defs.specs.Granules.{AreGranules};
ghost use Rattle.mt_defs.specs.Partition.{HaveOnePartition};
ghost use Rattle.mt_defs.specs.Projections.{base_of};
ghost use Rattle.mt_defs.specs.Rows.{ArePartRows};
ghost use Rattle.mt_definition.specs.DefinitionReading.{definition_reading};
ghost use Rattle.mt_check.specs.FolderChecks.{files_checks};
ghost use Rattle.mt_check.specs.ListedChecks.{folders_of};
ghost use Rattle.mt_fault.specs.Results.{Gives};

use crate::partition::check_partition;
use crate::projection::check_projections;
use crate::skip_index::check_skips;
use mt_definition::{Accepted, read_definition};
use mt_fault::{FileBytes, FileError};
use mt_table::Table;
use mt_types::List;
use std::alloc::Global;

/// The files of a part's folder that are read.
#[derive(Drop)]
pub struct PartFiles {
    /// The part's own files, by their names below it.
    pub base: List<FileBytes>,
    /// The files of each projection in the table's order, by their names below its folder, if the
    /// projection is there.
    pub projections: List<Option<List<FileBytes>>>,
}

/// The rows and granules for which the files of a part stand, or their first fault (docs/FORMAT.md, "The
/// first fault"). Other names in the folder aren't looked at.
pub fn check_files(alloc: Global, table: &Table, files: &PartFiles) -> Result<Accepted, FileError>
    requires { length files.now.projections ≡ length table.now.projections }
    ensures gives { Gives result (files_checks table.now (folder_of files.now.base) (folders_of files.now)) }
    ensures rows { IfOk result (λ accepted. ArePartRows (base_of table.now) accepted.rows) }
    ensures one { IfOk result (λ accepted. HaveOnePartition table.now accepted.rows) }
    ensures cut { IfOk result (λ accepted. AreGranules accepted.granules accepted.rows) }
{
    let accepted = read_base(alloc, table, files.base.as_slice())?;
    check_partition(alloc, table, files.base.as_slice(), &accepted)?;
    check_skips(alloc, table, files.base.as_slice(), &accepted)?;
    check_projections(alloc, table, files.projections.as_slice(), &accepted)?;
    Ok(accepted)
}

/// The rows and granules of the part's own files.
fn read_base(alloc: Global, table: &Table, files: &[FileBytes]) -> Result<Accepted, FileError>
    ensures gives { Gives result (definition_reading (base_of table.now) (folder_of files.now)) }
    ensures rows { IfOk result (λ accepted. ArePartRows (base_of table.now) accepted.rows) }
    ensures cut { IfOk result (λ accepted. AreGranules accepted.granules accepted.rows) }
{
    match table.base(alloc) {
        Ok(definition) => read_definition(alloc, &definition, files),
        Err(_) => Err(FileError::NoMemory),
    }
}
