//! Projections: whether the rows in their folders stand for the part's.

ghost use Rattle.std.specs.Prelude.{◌≡◌, ◌<◌, ◌≤◌, ◌++◌, length, codes, map, option_map, IfOk};
ghost use Rattle.std.specs.List.{zip};
ghost use Rattle.mt_defs.specs.Folder.{folder_of};
ghost use Rattle.mt_defs.specs.Projections as defined;
ghost use Rattle.mt_table.specs.Stored.{projection_at};
ghost use Rattle.mt_meta.specs.Definitions.{HasProjections};
ghost use Rattle.mt_check.specs.FolderChecks.{projection_checks, stored_checks, projections_checks};
ghost use Rattle.mt_names.specs.ProjectionFolders.{projection_folder};
ghost use Rattle.mt_fault.specs.Faults.{file_fault};
ghost use Rattle.mt_check.specs.Results.{IsBelow};
ghost use Rattle.mt_fault.specs.Results.{Gives};
ghost use Rattle.mt_fault.specs.Results.{IsFault};

use mt_definition::{Accepted, read_definition};
use mt_fault::{Fault, FileBytes, FileError, Why, file_fault};
use mt_names::folder_name;
use mt_proj::stands_for;
use mt_table::{Projection, Table};
use mt_types::{List, NoMemory};
use std::alloc::Global;

/// That the folder of each projection that is there, by its files, holds rows that stand for the part's.
pub(crate) fn check_projections(
    alloc: Global,
    table: &Table,
    folders: &[Option<List<FileBytes>>],
    accepted: &Accepted,
) -> Result<(), FileError>
    requires table { HasProjections table.now }
    requires each { length folders.now ≡ length table.now.projections }
    ensures { Gives result (projections_checks table.now accepted.now (zip table.now.projections (map (option_map folder_of) folders.now))) }
{
    for (place, files) in folders.iter().enumerate() {
        check_projection(alloc, table, place, files, accepted)?;
    }
    Ok(())
}

/// The same of a projection, if it is there.
fn check_projection(
    alloc: Global,
    table: &Table,
    place: usize,
    files: &Option<List<FileBytes>>,
    accepted: &Accepted,
) -> Result<(), FileError>
    requires table { HasProjections table.now }
    requires there { place < length table.now.projections }
    ensures { Gives result (projection_checks table.now accepted.now (projection_at table.now place) (option_map folder_of files.now)) }
{
    match files {
        Some(files) => check_stored(alloc, table, place, files.as_slice(), accepted),
        None => Ok(()),
    }
}

/// That a projection's folder, by its files, holds rows that stand for the part's.
fn check_stored(
    alloc: Global,
    table: &Table,
    place: usize,
    files: &[FileBytes],
    accepted: &Accepted,
) -> Result<(), FileError>
    requires table { HasProjections table.now }
    requires there { place < length table.now.projections }
    ensures { Gives result (stored_checks table.now accepted.now (projection_at table.now place) (folder_of files.now)) }
{
    let projection = &table.projections.as_slice()[place];
    let Ok(definition) = table.inner(alloc, place) else {
        return Err(FileError::NoMemory);
    };
    let stored = match read_definition(alloc, &definition, files) {
        Ok(stored) => stored,
        Err(error) => return Err(below(alloc, projection, error)),
    };
    let rows = accepted.rows.as_slice();
    match stands_for(alloc, table, place, rows, stored.rows.as_slice()) {
        Ok(true) => Ok(()),
        Ok(false) => Err(stands_not(alloc, projection)),
        Err(_) => Err(FileError::NoMemory),
    }
}

/// The fault of a projection that doesn't stand for the rows.
fn stands_not(alloc: Global, projection: &Projection) -> FileError
    ensures { IsFault (file_fault (projection_folder projection.now) Why.Projection) result }
{
    match folder_name(alloc, projection, b"") {
        Ok(file) => file_fault(alloc, file.as_slice(), Why::Projection),
        Err(_) => FileError::NoMemory,
    }
}

/// An error of a projection's folder, whose file is named below it.
fn below(alloc: Global, projection: &Projection, error: FileError) -> FileError
    ensures { IsBelow (defined.projection_prefix projection.now) error result }
{
    match error {
        FileError::AtFault(fault) => match folder_name(alloc, projection, b"/") {
            Ok(prefix) => named_below(prefix, fault),
            Err(_) => FileError::NoMemory,
        },
        other => other,
    }
}

/// A fault whose file is named after a prefix.
fn named_below(mut prefix: List<u8>, fault: Fault) -> FileError
    ensures { IsFault (record { file = prefix ++ fault.file; granule = fault.granule; at = fault.at; why = fault.why }) result }
{
    match prefix.append(fault.file.as_slice()) {
        Ok(()) => FileError::AtFault(Fault {
            file: prefix,
            granule: fault.granule,
            at: fault.at,
            why: fault.why,
        }),
        Err(_) => FileError::NoMemory,
    }
}
