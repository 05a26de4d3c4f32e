//! The files of a listing, by their names.

ghost use Rattle.std.specs.Prelude.{◌≡◌, is_some, IfOk};
ghost use Rattle.mt_defs.specs.Folder.{folder_below};
ghost use Rattle.mt_defs.specs.Part.{is_compact};
ghost use Rattle.mt_shelf.specs.Files.{IsListing};
ghost use Rattle.mt_types.specs.NameReading.{after_prefix};
ghost use Rattle.mt_files.specs.Listings.{has_below, listed_folder, entry_names, size_in};

use mt_names::{MARKS_FILE, with_ending};
use mt_shelf::Entry;
use mt_types::NoMemory;
use std::alloc::Global;
use std::cmp::Ordering;

/// The size of a listed file in bytes. The names of a listing rise.
pub fn size_of(listing: &[Entry], name: &[u8]) -> Option<u64>
    requires { IsListing listing.now }
    ensures { result ≡ size_in listing.now name.now }
{
    let mut low = 0;
    let mut high = listing.len();
    while low < high {
        let middle = low + (high - low) / 2;
        match listing[middle].name.as_slice().cmp(name) {
            Ordering::Less => low = middle + 1,
            Ordering::Equal => return Some(listing[middle].size),
            Ordering::Greater => high = middle,
        }
    }
    None
}

/// Whether the folder below a prefix of the names is Compact: its marks file of all columns is listed.
pub fn is_compact_below(alloc: Global, listing: &[Entry], prefix: &[u8]) -> Result<bool, NoMemory>
    requires { IsListing listing.now }
    ensures { IfOk result (λ compact. compact ≡ is_compact (folder_below (listed_folder listing.now) prefix.now)) }
{
    let marks = with_ending(alloc, prefix, MARKS_FILE)?;
    Ok(size_of(listing, marks.as_slice()).is_some())
}

/// Whether a listed name begins with a prefix.
pub fn has_below(listing: &[Entry], prefix: &[u8]) -> bool
    ensures { result ≡ has_below (entry_names listing.now) prefix.now }
{
    for entry in listing {
        if is_below(entry, prefix) {
            return true;
        }
    }
    false
}

/// Whether the name of an entry begins with a prefix.
fn is_below(entry: &Entry, prefix: &[u8]) -> bool
    ensures { result ≡ is_some (after_prefix prefix.now entry.now.name) }
{
    entry.name.as_slice().strip_prefix(prefix).is_some()
}
