//! Reading a part's files from a shelf.

ghost use Rattle.std.specs.Prelude.{◌≡◌, ◌<◌, length, map, option_map, IfOk, IfSome, IsTrue};
ghost use Rattle.mt_defs.specs.Folder.{folder_below};
ghost use Rattle.mt_defs.specs.Projections.{inner_of};
ghost use Rattle.mt_shelf.specs.Causes.{HasCause};
ghost use Rattle.mt_shelf.specs.Files.{IsListing, entries_below};
ghost use Rattle.mt_shelf.specs.Paths.{is_path};
ghost use Rattle.mt_shelf.specs.State.{files_of};
ghost use Rattle.mt_table.specs.Stored.{projection_at};
ghost use Rattle.mt_files.specs.Listings.{listed_folder, entry_names};
ghost use Rattle.mt_files.specs.OwnNames as own;
ghost use Rattle.mt_check.specs.PartFiles.{HaveSameNames, base_files, inner_files, part_files, read_projection_files};
ghost use Rattle.mt_files.specs.NamedFiles.{file_names, part_folder};

use crate::folder::PartFiles;
use mt_fault::FileBytes;
use mt_files::{base_names, has_below, is_compact_below, own_names, read_named};
use mt_names::prefix_at;
use mt_shelf::{CallError, Entry, Shelf};
use mt_table::Table;
use mt_types::{List, NoMemory};
use std::alloc::Global;

/// The files of a part on a shelf, and of its projections, whose names a part of the table has. Each that
/// is listed is read once, and others aren't read.
pub fn read_part<F: Shelf>(
    alloc: Global,
    table: &Table,
    part: &str,
    listing: &[Entry],
    shelf: &mut F,
) -> Result<PartFiles, CallError>
    requires path { IsTrue (is_path part.now) }
    requires form { IsListing listing.now }
    requires known { IfSome (files_of (F.state shelf.old)) (λ files. listing.now ≡ entries_below part.now files) }
    ensures known { IfOk result (λ read. IfSome (files_of (F.state shelf.old)) (λ files. read ≡ part_files table.now (part_folder part.now files) (entry_names listing.now))) }
    ensures names { IfOk result (λ read. HaveSameNames read (part_files table.now (listed_folder listing.now) (entry_names listing.now))) }
    ensures files { files_of (F.state shelf.new) ≡ files_of (F.state shelf.old) }
    ensures cause { HasCause (F.faults shelf.old) (F.faults shelf.new) result }
{
    let base = read_base(alloc, table, part, listing, shelf)?;
    let projections = read_projections(alloc, table, part, listing, shelf)?;
    Ok(PartFiles { base, projections })
}

/// The part's own files.
fn read_base<F: Shelf>(
    alloc: Global,
    table: &Table,
    part: &str,
    listing: &[Entry],
    shelf: &mut F,
) -> Result<List<FileBytes>, CallError>
    requires path { IsTrue (is_path part.now) }
    requires form { IsListing listing.now }
    requires known { IfSome (files_of (F.state shelf.old)) (λ files. listing.now ≡ entries_below part.now files) }
    ensures known { IfOk result (λ read. IfSome (files_of (F.state shelf.old)) (λ files. read ≡ base_files table.now (part_folder part.now files))) }
    ensures names { IfOk result (λ read. file_names read ≡ file_names (base_files table.now (listed_folder listing.now))) }
    ensures files { files_of (F.state shelf.new) ≡ files_of (F.state shelf.old) }
    ensures cause { HasCause (F.faults shelf.old) (F.faults shelf.new) result }
{
    let compact = is_compact_below(alloc, listing, b"")?;
    let names = base_names(alloc, table, compact)?;
    read_named(alloc, part, b"", names.as_slice(), listing, shelf)
}

/// The files of each projection that is there.
fn read_projections<F: Shelf>(
    alloc: Global,
    table: &Table,
    part: &str,
    listing: &[Entry],
    shelf: &mut F,
) -> Result<List<Option<List<FileBytes>>>, CallError>
    requires path { IsTrue (is_path part.now) }
    requires form { IsListing listing.now }
    requires known { IfSome (files_of (F.state shelf.old)) (λ files. listing.now ≡ entries_below part.now files) }
    ensures known { IfOk result (λ read. IfSome (files_of (F.state shelf.old)) (λ files.
        read ≡ map (read_projection_files table.now (part_folder part.now files) (entry_names listing.now)) table.now.projections)) }
    ensures names { IfOk result (λ read. map (option_map file_names) read
        ≡ map (option_map file_names) (map (read_projection_files table.now (listed_folder listing.now) (entry_names listing.now)) table.now.projections)) }
    ensures files { files_of (F.state shelf.new) ≡ files_of (F.state shelf.old) }
    ensures cause { HasCause (F.faults shelf.old) (F.faults shelf.new) result }
{
    let mut projections = List::new(alloc);
    for place in 0..table.projections.len() {
        let files = read_projection(alloc, table, place, part, listing, shelf)?;
        projections.push(files)?;
    }
    Ok(projections)
}

/// The files of a projection, if it is there.
fn read_projection<F: Shelf>(
    alloc: Global,
    table: &Table,
    place: usize,
    part: &str,
    listing: &[Entry],
    shelf: &mut F,
) -> Result<Option<List<FileBytes>>, CallError>
    requires there { place < length table.now.projections }
    requires path { IsTrue (is_path part.now) }
    requires form { IsListing listing.now }
    requires known { IfSome (files_of (F.state shelf.old)) (λ files. listing.now ≡ entries_below part.now files) }
    ensures known { IfOk result (λ read. IfSome (files_of (F.state shelf.old)) (λ files.
        read ≡ read_projection_files table.now (part_folder part.now files) (entry_names listing.now) (projection_at table.now place))) }
    ensures names { IfOk result (λ read. option_map file_names read
        ≡ option_map file_names (read_projection_files table.now (listed_folder listing.now) (entry_names listing.now) (projection_at table.now place))) }
    ensures files { files_of (F.state shelf.new) ≡ files_of (F.state shelf.old) }
    ensures cause { HasCause (F.faults shelf.old) (F.faults shelf.new) result }
{
    let prefix = prefix_at(alloc, table, place)?;
    if !has_below(listing, prefix.as_slice()) {
        return Ok(None);
    }
    let files = read_folder(alloc, table, place, part, prefix.as_slice(), listing, shelf)?;
    Ok(Some(files))
}

/// The files in the folder of a projection.
fn read_folder<F: Shelf>(
    alloc: Global,
    table: &Table,
    place: usize,
    part: &str,
    prefix: &[u8],
    listing: &[Entry],
    shelf: &mut F,
) -> Result<List<FileBytes>, CallError>
    requires there { place < length table.now.projections }
    requires path { IsTrue (is_path part.now) }
    requires form { IsListing listing.now }
    requires known { IfSome (files_of (F.state shelf.old)) (λ files. listing.now ≡ entries_below part.now files) }
    ensures known { IfOk result (λ read. IfSome (files_of (F.state shelf.old)) (λ files.
        read ≡ inner_files table.now (projection_at table.now place) (folder_below (part_folder part.now files) prefix.now))) }
    ensures names { IfOk result (λ read. file_names read
        ≡ file_names (inner_files table.now (projection_at table.now place) (folder_below (listed_folder listing.now) prefix.now))) }
    ensures files { files_of (F.state shelf.new) ≡ files_of (F.state shelf.old) }
    ensures cause { HasCause (F.faults shelf.old) (F.faults shelf.new) result }
{
    let compact = is_compact_below(alloc, listing, prefix)?;
    let names = projection_names(alloc, table, place, compact)?;
    read_named(alloc, part, prefix, names.as_slice(), listing, shelf)
}

/// The names of the files of a projection that are read.
fn projection_names(
    alloc: Global,
    table: &Table,
    place: usize,
    compact: bool,
) -> Result<Vec<List<u8>>, NoMemory>
    requires { place < length table.now.projections }
    ensures { IfOk result (λ names. names.items ≡ own.own_names (inner_of table.now (projection_at table.now place)).columns compact) }
{
    let definition = table.inner(alloc, place)?;
    own_names(alloc, definition.columns.as_slice(), compact)
}
