//! The steps that read and check a part, and keep the files that were read.

ghost use Rattle.std.specs.Prelude.{◌≡◌, length, map, option_map, true, IfErr, IfOk, IfSome, IsTrue};
ghost use Rattle.mt_shelf.specs.Files.{IsListing, entries_below};
ghost use Rattle.mt_shelf.specs.Paths.{is_path};
ghost use Rattle.mt_shelf.specs.State.{files_of};
ghost use Rattle.mt_defs.specs.Folder.{folder_of};
ghost use Rattle.mt_check.specs.ListedChecks.{listed_checks};
ghost use Rattle.mt_check.specs.PartFiles.{part_files};
ghost use Rattle.mt_files.specs.Listings.{entry_names};
ghost use Rattle.mt_files.specs.NamedFiles.{part_folder};
ghost use Rattle.mt_command.specs.Outcomes.{ReturnsOutcome, refused_by};
ghost use Rattle.mt_command.specs.Status.{is_outside_fault};
ghost use Rattle.mt_command.specs.Steps.{StepCausedBy, of_nothing, of_shelf};
ghost use Rattle.mt_command.specs.declared.status.Status.TheVariants.{AtFault};
ghost use Rattle.mt_show.specs.Shape.{shape_in};
ghost use Rattle.mt_show.specs.Text as text;

use crate::shape::shape_of;
use crate::text::show_text;
use mt_check::{PartFiles, check_listed, read_part};
use mt_command::{Status, at_fault, status_of_shelf};
use mt_definition::Accepted;
use mt_fault::FileError;
use mt_shelf::{Entry, Shelf};
use mt_table::Table;
use mt_types::{List, NoMemory};
use std::alloc::Global;

/// Reads the files of a part that its checks ask for.
pub(crate) fn read_files<F: Shelf>(
    alloc: Global,
    shelf: &mut F,
    table: &Table,
    part: &str,
    listing: &[Entry],
) -> Result<PartFiles, Status>
    requires path { IsTrue (is_path part.now) }
    requires form { IsListing listing.now }
    requires known { IfSome (files_of (F.state shelf.old)) (λ files. listing.now ≡ entries_below part.now files) }
    ensures known { IfOk result (λ read. IfSome (files_of (F.state shelf.old)) (λ files. read ≡ part_files table.now (part_folder part.now files) (entry_names listing.now))) }
    ensures each { IfOk result (λ read. length read.projections ≡ length table.now.projections) }
    ensures outside { IfErr result (λ status. is_outside_fault status ≡ true) }
    ensures files { files_of (F.state shelf.new) ≡ files_of (F.state shelf.old) }
    ensures cause { StepCausedBy result (of_shelf (F.faults shelf.old)) (of_shelf (F.faults shelf.new)) }
{
    match read_part(alloc, table, part, listing, shelf) {
        Ok(files) => Ok(files),
        Err(error) => Err(status_of_shelf(error)),
    }
}

/// Checks the files of a part that is listed so.
pub(crate) fn judge_files(
    alloc: Global,
    table: &Table,
    part: &str,
    files: &PartFiles,
    listing: &[Entry],
) -> Result<Accepted, Status>
    requires form { IsListing listing.now }
    requires each { length files.now.projections ≡ length table.now.projections }
    ensures gives { ReturnsOutcome result
        (refused_by (AtFault part.now) (λ answer. listed_checks table.now files.now listing.now ≡ answer)) }
    ensures cause { StepCausedBy result of_nothing of_nothing }
{
    match check_listed(alloc, table, files, listing) {
        Ok(accepted) => Ok(accepted),
        Err(FileError::AtFault(fault)) => Err(at_fault(alloc, part, fault)),
        Err(FileError::NoMemory) => Err(Status::NoMemory),
    }
}

/// The text of files that were accepted.
pub(crate) fn files_text(
    alloc: Global,
    table: &Table,
    files: &PartFiles,
    accepted: &Accepted,
) -> Result<List<u8>, NoMemory>
    requires { length files.now.projections ≡ length table.now.projections }
    ensures { IfOk result (λ made. made ≡ text.show_text table.now
        (shape_in table.now (folder_of files.now.base) (map (option_map folder_of) files.now.projections)) accepted.now) }
{
    let shape = shape_of(alloc, table, files)?;
    show_text(alloc, table, &shape, accepted)
}
