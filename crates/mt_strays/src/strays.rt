//! Names that don't belong to a part.

ghost use Rattle.mt_shelf.specs.Files.{IsListing};
ghost use Rattle.mt_table.specs.Kept.{is_place};
ghost use Rattle.mt_files.specs.Listings.{entry_names};
ghost use Rattle.mt_strays.specs.NameSets.{HasNames};
ghost use Rattle.mt_strays.specs.Strays.{names_reading, strays_reading};
ghost use Rattle.mt_fault.specs.Results.{Gives};
ghost use Rattle.std.specs.Prelude.{ℕ, List as Seq, IsTrue};
ghost use Rattle.std.specs.List.{list_all};

use crate::known_names::known_names;
use crate::name_set::NameSet;
use mt_fault::{FileError, Why, file_fault};
use mt_shelf::Entry;
use mt_table::Table;
use mt_types::List;
use std::alloc::Global;

/// That each listed name may stand below a part that has these columns of the table, by their places: else
/// the first that may not is a `Stray`. A listing is in the byte order of its names.
pub fn check_names(
    alloc: Global,
    table: &Table,
    order: &[u32],
    listing: &[Entry],
) -> Result<(), FileError>
    requires form { IsListing listing.now }
    requires there { IsTrue (list_all (is_place table.now.columns) order.now) }
    ensures { Gives result (names_reading table.now order.now listing.now) }
{
    match known_names(alloc, table, order, listing) {
        Ok(known) => check_among(alloc, known.as_slice(), listing),
        Err(_) => Err(FileError::NoMemory),
    }
}

/// That each listed name is known.
fn check_among(alloc: Global, known: &[List<u8>], listing: &[Entry]) -> Result<(), FileError>
    ensures { Gives result (strays_reading known.now (entry_names listing.now)) }
{
    match NameSet::of(alloc, known) {
        Ok(set) => check_each(alloc, &set, listing),
        Err(_) => Err(FileError::NoMemory),
    }
}

/// That each listed name is in a set.
fn check_each(alloc: Global, set: &NameSet, listing: &[Entry]) -> Result<(), FileError>
    ensures { (known : Seq (Seq ℕ)) → HasNames set.now known
        → Gives result (strays_reading known (entry_names listing.now)) }
{
    for entry in listing {
        if !set.contains(entry.name.as_slice()) {
            return Err(file_fault(alloc, entry.name.as_slice(), Why::Stray));
        }
    }
    Ok(())
}
