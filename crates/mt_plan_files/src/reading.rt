//! Reading these files from a shelf.

ghost use Rattle.std.specs.Prelude.{◌≡◌, ◌++◌, ◌≤◌, [], length, option_map, IfOk, IfSome, IsTrue, OnOk, Some};
ghost use Rattle.std.specs.List.{cons_option, sum_by};
ghost use Rattle.mt_defs.specs.Folder.{folder_of};
ghost use Rattle.mt_defs.specs.Projections.{base_of};
ghost use Rattle.mt_shelf.specs.Causes.{HasCause};
ghost use Rattle.mt_shelf.specs.Files.{IsListing, entries_below, is_file_name};
ghost use Rattle.mt_shelf.specs.Paths.{is_path};
ghost use Rattle.mt_shelf.specs.State.{ReadsUpTo, files_of};
ghost use Rattle.mt_files.specs.NamedFiles.{file_named, files_named, part_folder};
ghost use Rattle.mt_files.specs.PartTexts.{order_reading};
ghost use Rattle.mt_plan_files.specs.Planned as defined;
ghost use Rattle.mt_plan_files.specs.Sizes.{listed_size};

use crate::names::planned_names;
use mt_fault::{FileBytes, FileError};
use mt_files::{is_compact_below, path_of, read_order, size_of};
use mt_names::COLUMNS_FILE;
use mt_query::Query;
use mt_shelf::{CallError, Entry, Shelf, read_file};
use mt_table::Table;
use mt_types::{List, NoMemory};
use std::alloc::Global;

/// The files that planning reads of a part on a shelf, of those that are there (docs/LANGUAGE.md, "Plans").
/// Each is read once; of a part whose columns.txt has a fault that file alone is read.
pub fn read_planned<F: Shelf>(
    alloc: Global,
    table: &Table,
    query: &Query,
    part: &str,
    listing: &[Entry],
    shelf: &mut F,
) -> Result<List<FileBytes>, CallError>
    requires path { IsTrue (is_path part.now) }
    requires form { IsListing listing.now }
    requires known { IfSome (files_of (F.state shelf.old)) (λ files. listing.now ≡ entries_below part.now files) }
    ensures known { IfOk result (λ read. IfSome (files_of (F.state shelf.old)) (λ files.
        read ≡ defined.planned_files table.now query.now (part_folder part.now files))) }

    // Whatever is returned, no more bytes were taken than these files have.
    ensures taken { IfSome (files_of (F.state shelf.old)) (λ files.
        ReadsUpTo (defined.plan_cost table.now query.now (part_folder part.now files)) (F.state shelf.old) (F.state shelf.new)) }
    ensures files { files_of (F.state shelf.new) ≡ files_of (F.state shelf.old) }
    ensures cause { HasCause (F.faults shelf.old) (F.faults shelf.new) result }
{
    let mut files = List::new(alloc);
    read_into(alloc, part, COLUMNS_FILE, listing, shelf, &mut files)?;
    let compact = is_compact_below(alloc, listing, b"")?;
    let names = later_names(alloc, table, query, compact, files.as_slice())?;
    read_all(alloc, part, names.as_slice(), listing, shelf, &mut files)?;
    Ok(files)
}

/// The names of the files that are read after columns.txt.
fn later_names(
    alloc: Global,
    table: &Table,
    query: &Query,
    compact: bool,
    files: &[FileBytes],
) -> Result<Vec<List<u8>>, NoMemory>
    ensures { IfOk result (λ names. names.items
        ≡ defined.later_names table.now query.now compact (order_reading (base_of table.now) (folder_of files.now))) }
{
    let definition = table.base(alloc)?;
    match read_order(alloc, &definition, files) {
        Ok(order) => planned_names(alloc, table, query, order.as_slice(), compact),
        Err(FileError::AtFault(_)) => Ok(Vec::new(alloc)),
        Err(FileError::NoMemory) => Err(NoMemory),
    }
}

/// Appends the files of some names, of those that are listed.
fn read_all<F: Shelf>(
    alloc: Global,
    part: &str,
    names: &[List<u8>],
    listing: &[Entry],
    shelf: &mut F,
    files: &mut List<FileBytes>,
) -> Result<(), CallError>
    requires path { IsTrue (is_path part.now) }
    requires form { IsListing listing.now }
    requires known { IfSome (files_of (F.state shelf.old)) (λ stored. listing.now ≡ entries_below part.now stored) }
    ensures known { OnOk result (IfSome (files_of (F.state shelf.old)) (λ stored.
        files.new ≡ files.old ++ files_named (part_folder part.now stored) names.now)) }
    ensures taken { ReadsUpTo (sum_by (listed_size listing.now) names.now) (F.state shelf.old) (F.state shelf.new) }
    ensures cause { HasCause (F.faults shelf.old) (F.faults shelf.new) result }
{
    for name in names {
        read_into(alloc, part, name.as_slice(), listing, shelf, files)?;
    }
    Ok(())
}

/// Appends the file of a name, if it is listed.
fn read_into<F: Shelf>(
    alloc: Global,
    part: &str,
    name: &[u8],
    listing: &[Entry],
    shelf: &mut F,
    files: &mut List<FileBytes>,
) -> Result<(), CallError>
    requires path { IsTrue (is_path part.now) }
    requires form { IsListing listing.now }
    requires known { IfSome (files_of (F.state shelf.old)) (λ stored. listing.now ≡ entries_below part.now stored) }
    ensures known { OnOk result (IfSome (files_of (F.state shelf.old)) (λ stored.
        files.new ≡ files.old ++ cons_option (file_named (part_folder part.now stored) name.now) [])) }
    ensures taken { ReadsUpTo (listed_size listing.now name.now) (F.state shelf.old) (F.state shelf.new) }
    ensures cause { HasCause (F.faults shelf.old) (F.faults shelf.new) result }
{
    let Some(size) = size_of(listing, name) else {
        return Ok(());
    };
    let bytes = read_entry(alloc, part, name, size, shelf)?;
    let name = List::of_bytes(alloc, name)?;
    files.push(FileBytes { name, bytes })?;
    Ok(())
}

/// The bytes of a file of a part, whose size is known.
fn read_entry<F: Shelf>(
    alloc: Global,
    part: &str,
    name: &[u8],
    size: u64,
    shelf: &mut F,
) -> Result<List<u8>, CallError>
    requires path { IsTrue (is_path part.now) }
    requires name { IsTrue (is_file_name name.now) }
    requires size { IfSome (files_of (F.state shelf.old)) (λ files. option_map length (part_folder part.now files name.now) ≡ Some size) }
    ensures known { IfOk result (λ bytes. IfSome (files_of (F.state shelf.old)) (λ files. part_folder part.now files name.now ≡ Some bytes)) }
    ensures taken { ReadsUpTo size (F.state shelf.old) (F.state shelf.new) }
    ensures cause { HasCause (F.faults shelf.old) (F.faults shelf.new) result }
{
    let path = path_of(alloc, part, name)?;
    read_file(alloc, shelf, path.as_str(), size)
}
