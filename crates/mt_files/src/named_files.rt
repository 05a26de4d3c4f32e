//! Reading the files of some names from a shelf.

ghost use Rattle.std.specs.Prelude.{◌≡◌, ◌++◌, [], Some, length, is_some, option_map, IfOk, IfSome, IsTrue, OnOk};
ghost use Rattle.std.specs.List.{cons_option};
ghost use Rattle.std.specs.String.{string_bytes};
ghost use Rattle.mt_defs.specs.Folder.{folder_below};
ghost use Rattle.mt_shelf.specs.Causes.{HasCause};
ghost use Rattle.mt_shelf.specs.Files.{IsListing, entries_below, is_file_name};
ghost use Rattle.mt_shelf.specs.Paths.{is_path, joined_path};
ghost use Rattle.mt_shelf.specs.State.{files_of};
ghost use Rattle.mt_files.specs.Listings.{listed_folder, size_in};
ghost use Rattle.mt_files.specs.NamedFiles.{file_named, file_names, files_named, part_folder};

use crate::listing::size_of;
use mt_fault::FileBytes;
use mt_names::with_ending;
use mt_shelf::{CallError, Entry, Shelf, read_file};
use mt_types::{List, NoMemory};
use std::alloc::Global;

/// The files of some names below a prefix, of those that are listed.
pub fn read_named<F: Shelf>(
    alloc: Global,
    part: &str,
    prefix: &[u8],
    names: &[List<u8>],
    listing: &[Entry],
    shelf: &mut F,
) -> Result<List<FileBytes>, CallError>
    requires path { IsTrue (is_path part.now) }
    requires form { IsListing listing.now }
    requires known { IfSome (files_of (F.state shelf.old)) (λ files. listing.now ≡ entries_below part.now files) }
    ensures known { IfOk result (λ read. IfSome (files_of (F.state shelf.old)) (λ files.
        read ≡ files_named (folder_below (part_folder part.now files) prefix.now) names.now)) }
    ensures names { IfOk result (λ read. file_names read
        ≡ file_names (files_named (folder_below (listed_folder listing.now) prefix.now) names.now)) }
    ensures files { files_of (F.state shelf.new) ≡ files_of (F.state shelf.old) }
    ensures cause { HasCause (F.faults shelf.old) (F.faults shelf.new) result }
{
    let mut files = List::new(alloc);
    for name in names {
        let file = read_name(alloc, part, prefix, name.as_slice(), listing, shelf)?;
        push_file(&mut files, file)?;
    }
    Ok(files)
}

/// Appends a file, if there is one.
fn push_file(files: &mut List<FileBytes>, file: Option<FileBytes>) -> Result<(), NoMemory>
    ensures { OnOk result (files.new ≡ files.old ++ cons_option file []) }
{
    match file {
        Some(file) => files.push(file),
        None => Ok(()),
    }
}

/// The file of a name below a prefix, if it is listed.
fn read_name<F: Shelf>(
    alloc: Global,
    part: &str,
    prefix: &[u8],
    name: &[u8],
    listing: &[Entry],
    shelf: &mut F,
) -> Result<Option<FileBytes>, CallError>
    requires path { IsTrue (is_path part.now) }
    requires form { IsListing listing.now }
    requires known { IfSome (files_of (F.state shelf.old)) (λ files. listing.now ≡ entries_below part.now files) }
    ensures known { IfOk result (λ read. IfSome (files_of (F.state shelf.old)) (λ files.
        read ≡ file_named (folder_below (part_folder part.now files) prefix.now) name.now)) }
    ensures names { IfOk result (λ read. option_map (λ file. file.name) read
        ≡ option_map (λ file. file.name) (file_named (folder_below (listed_folder listing.now) prefix.now) name.now)) }
    ensures files { files_of (F.state shelf.new) ≡ files_of (F.state shelf.old) }
    ensures cause { HasCause (F.faults shelf.old) (F.faults shelf.new) result }
{
    let whole = with_ending(alloc, prefix, name)?;
    let Some(bytes) = read_listed(alloc, part, whole.as_slice(), listing, shelf)? else {
        return Ok(None);
    };
    let name = List::of_bytes(alloc, name)?;
    Ok(Some(FileBytes { name, bytes }))
}

/// The bytes of a file, if it is listed.
pub fn read_listed<F: Shelf>(
    alloc: Global,
    part: &str,
    name: &[u8],
    listing: &[Entry],
    shelf: &mut F,
) -> Result<Option<List<u8>>, CallError>
    requires path { IsTrue (is_path part.now) }
    requires form { IsListing listing.now }
    requires known { IfSome (files_of (F.state shelf.old)) (λ files. listing.now ≡ entries_below part.now files) }
    ensures known { IfOk result (λ read. IfSome (files_of (F.state shelf.old)) (λ files. read ≡ part_folder part.now files name.now)) }
    ensures listed { IfOk result (λ read. is_some read ≡ is_some (size_in listing.now name.now)) }
    ensures files { files_of (F.state shelf.new) ≡ files_of (F.state shelf.old) }
    ensures cause { HasCause (F.faults shelf.old) (F.faults shelf.new) result }
{
    match size_of(listing, name) {
        Some(size) => Ok(Some(read_entry(alloc, part, name, size, shelf)?)),
        None => Ok(None),
    }
}

/// The bytes of a file of a part, whose size is known.
fn read_entry<F: Shelf>(
    alloc: Global,
    part: &str,
    name: &[u8],
    size: u64,
    shelf: &mut F,
) -> Result<List<u8>, CallError>
    requires path { IsTrue (is_path part.now) }
    requires name { IsTrue (is_file_name name.now) }
    requires size { IfSome (files_of (F.state shelf.old)) (λ files. option_map length (part_folder part.now files name.now) ≡ Some size) }
    ensures known { IfOk result (λ bytes. IfSome (files_of (F.state shelf.old)) (λ files. part_folder part.now files name.now ≡ Some bytes)) }
    ensures files { files_of (F.state shelf.new) ≡ files_of (F.state shelf.old) }
    ensures cause { HasCause (F.faults shelf.old) (F.faults shelf.new) result }
{
    let path = path_of(alloc, part, name)?;
    read_file(alloc, shelf, path.as_str(), size)
}

/// The path of a file of a part.
pub fn path_of(alloc: Global, part: &str, name: &[u8]) -> Result<String, NoMemory>
    requires { IsTrue (is_file_name name.now) }
    ensures { IfOk result (λ path. string_bytes path ≡ joined_path part.now name.now) }
{
    match str::from_utf8(name) {
        Ok(name) => joined_path(alloc, part, name),
        Err(_) => unreachable!(),
    }
}

/// The path of a name below a folder.
fn joined_path(alloc: Global, folder: &str, name: &str) -> Result<String, NoMemory>
    ensures { IfOk result (λ path. string_bytes path ≡ joined_path folder.now name.now) }
{
    let mut path = String::from_str(alloc, folder)?;
    path.push_str("/")?;
    path.push_str(name)?;
    Ok(path)
}
