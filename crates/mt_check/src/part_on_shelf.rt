//! A part on a shelf: its files are read, and then checked.

ghost use Rattle.std.specs.Prelude.{◌≡◌, ◌≤◌, All, IfOk, IfSome, IsTrue, length, map};
ghost use Rattle.std.specs.FinMap.{get};
ghost use Rattle.std.specs.List.{list_all, sum_by};
ghost use Rattle.mt_defs.specs.Folder.{folder_of};
ghost use Rattle.mt_defs.specs.Granules.{AreGranules};
ghost use Rattle.mt_defs.specs.Partition.{HaveOnePartition};
ghost use Rattle.mt_defs.specs.Projections.{base_of};
ghost use Rattle.mt_defs.specs.Rows.{ArePartRows};
ghost use Rattle.mt_shelf.specs.Files.{IsListing, entries_below};
ghost use Rattle.mt_shelf.specs.Paths.{is_path, joined_path};
ghost use Rattle.mt_shelf.specs.State.{files_of};
ghost use Rattle.mt_table.specs.Kept.{is_place};
ghost use Rattle.mt_table.specs.Rows.{RowFits};
ghost use Rattle.mt_check.specs.FolderChecks.{folder_checks};
ghost use Rattle.mt_check.specs.ListedChecks.{listed_checks};
ghost use Rattle.mt_fault.specs.Results.{Gives};
ghost use Rattle.mt_files.specs.PartTexts.{order_reading};
ghost use Rattle.mt_files.specs.ShelfResults.{ReadFails};
ghost use Rattle.mt_check.specs.ShelfResults.{GivesFrom};

use crate::folder::{PartFiles, check_files};
use crate::reading::read_part;
use mt_definition::Accepted;
use mt_fault::{FileBytes, FileError};
use mt_files::read_order;
use mt_shelf::{CallError, Entry, ReadError, Shelf};
use mt_strays::check_names;
use mt_table::Table;
use mt_types::List;
use std::alloc::Global;

/// The bytes of all files of a part together, at most.
pub const MAX_FOLDER: u64 = 536_870_912;

/// The rows and granules for which a part on a shelf stands, or its first fault (docs/FORMAT.md, "The first
/// fault"). Each file that the table expects is read once; all others are known by their names.
pub fn check<F: Shelf>(
    alloc: Global,
    table: &Table,
    part: &str,
    listing: &[Entry],
    shelf: &mut F,
) -> Result<Accepted, ReadError>
    requires path { IsTrue (is_path part.now) }
    requires form { IsListing listing.now }
    requires few { sum_by (λ entry. entry.size) listing.now ≤ MAX_FOLDER }
    requires known { IfSome (files_of (F.state shelf.old)) (λ files. listing.now ≡ entries_below part.now files) }
    ensures gives { IfSome (files_of (F.state shelf.old)) (λ files. GivesFrom result
        (folder_checks table.now (λ name. get files (joined_path part.now name)) (map (λ entry. entry.name) listing.now))) }
    ensures rows { IfOk result (λ accepted. ArePartRows (base_of table.now) accepted.rows) }
    ensures one { IfOk result (λ accepted. HaveOnePartition table.now accepted.rows) }
    ensures cut { IfOk result (λ accepted. AreGranules accepted.granules accepted.rows) }
    ensures fit { IfOk result (λ accepted. All (RowFits table.now.columns) accepted.rows) }
    ensures files { files_of (F.state shelf.new) ≡ files_of (F.state shelf.old) }
    ensures cause { ReadFails (F.faults shelf.old) (F.faults shelf.new) result }
{
    match read_part(alloc, table, part, listing, shelf) {
        Ok(files) => Ok(check_listed(alloc, table, &files, listing)?),
        Err(CallError::Failed) => Err(ReadError::Shelf),
        Err(CallError::NoMemory) => Err(ReadError::NoMemory),
    }
}

/// The rows and granules for which files stand, in a part that is listed so, or the first
/// fault.
pub fn check_listed(
    alloc: Global,
    table: &Table,
    files: &PartFiles,
    listing: &[Entry],
) -> Result<Accepted, FileError>
    requires form { IsListing listing.now }
    requires each { length files.now.projections ≡ length table.now.projections }
    ensures gives { Gives result (listed_checks table.now files.now listing.now) }
    ensures rows { IfOk result (λ accepted. ArePartRows (base_of table.now) accepted.rows) }
    ensures one { IfOk result (λ accepted. HaveOnePartition table.now accepted.rows) }
    ensures cut { IfOk result (λ accepted. AreGranules accepted.granules accepted.rows) }
{
    let accepted = check_files(alloc, table, files)?;
    let order = listed_order(alloc, table, files.base.as_slice())?;
    check_names(alloc, table, order.as_slice(), listing)?;
    Ok(accepted)
}

/// The columns that a part lists, by their places in the table.
fn listed_order(alloc: Global, table: &Table, files: &[FileBytes]) -> Result<List<u32>, FileError>
    ensures gives { Gives result (order_reading (base_of table.now) (folder_of files.now)) }
    ensures there { IfOk result (λ order. IsTrue (list_all (is_place table.now.columns) order)) }
{
    match table.base(alloc) {
        Ok(definition) => read_order(alloc, &definition, files),
        Err(_) => Err(FileError::NoMemory),
    }
}
