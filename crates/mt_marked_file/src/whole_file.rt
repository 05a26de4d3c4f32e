//! A whole file of a part, and how many bytes reading it takes.

ghost use Rattle.std.specs.Prelude.{◌≡◌, length, IfOk, IfSome, IsTrue, Some};
ghost use Rattle.std.specs.Option.{option_map};
ghost use Rattle.mt_shelf.specs.Causes.{HasCause};
ghost use Rattle.mt_shelf.specs.Files.{IsListing, entries_below, is_file_name};
ghost use Rattle.mt_shelf.specs.Paths.{is_path};
ghost use Rattle.mt_shelf.specs.State.{files_of, ReadsUpTo};
ghost use Rattle.mt_files.specs.NamedFiles.{part_folder};
ghost use Rattle.mt_marked_file.specs.Opening.{listed_size};

use mt_files::{path_of, size_of};
use mt_shelf::{CallError, Entry, Shelf, read_file};
use mt_types::List;
use std::alloc::Global;

/// The bytes of a file, if it is listed.
pub(crate) fn read_whole<F: Shelf>(
    alloc: Global,
    part: &str,
    name: &[u8],
    listing: &[Entry],
    shelf: &mut F,
) -> Result<Option<List<u8>>, CallError>
    requires path { IsTrue (is_path part.now) }
    requires form { IsListing listing.now }
    requires known { IfSome (files_of (F.state shelf.old)) (λ files. listing.now ≡ entries_below part.now files) }
    ensures known { IfOk result (λ read. IfSome (files_of (F.state shelf.old)) (λ files. read ≡ part_folder part.now files name.now)) }
    ensures taken { ReadsUpTo (listed_size listing.now name.now) (F.state shelf.old) (F.state shelf.new) }
    ensures cause { HasCause (F.faults shelf.old) (F.faults shelf.new) result }
{
    match size_of(listing, name) {
        Some(size) => Ok(Some(read_entry(alloc, part, name, size, shelf)?)),
        None => Ok(None),
    }
}

/// The bytes of a file of a part, whose size is known.
fn read_entry<F: Shelf>(
    alloc: Global,
    part: &str,
    name: &[u8],
    size: u64,
    shelf: &mut F,
) -> Result<List<u8>, CallError>
    requires path { IsTrue (is_path part.now) }
    requires name { IsTrue (is_file_name name.now) }
    requires size { IfSome (files_of (F.state shelf.old)) (λ files. option_map length (part_folder part.now files name.now) ≡ Some size) }
    ensures known { IfOk result (λ bytes. IfSome (files_of (F.state shelf.old)) (λ files. part_folder part.now files name.now ≡ Some bytes)) }
    ensures taken { ReadsUpTo size (F.state shelf.old) (F.state shelf.new) }
    ensures cause { HasCause (F.faults shelf.old) (F.faults shelf.new) result }
{
    let path = path_of(alloc, part, name)?;
    read_file(alloc, shelf, path.as_str(), size)
}
