//! Opening a data file with its marks file.

ghost use Rattle.std.specs.Prelude.{◌≡◌, ◌≤◌, ℕ, IfOk, IfSome, IsTrue, Ok, length, sum};
ghost use Rattle.std.specs.String.{string_bytes};
ghost use Rattle.mt_fault.specs.Faults.{Judged};
ghost use Rattle.mt_shelf.specs.Files.{IsListing, entries_below, is_file_name};
ghost use Rattle.mt_shelf.specs.Paths.{is_path, joined_path};
ghost use Rattle.mt_shelf.specs.State.{files_of, ReadsUpTo};
ghost use Rattle.mt_table.specs.declared.limits.TheConstants.{MAX_ROWS};
ghost use Rattle.mt_marks.specs.declared.marks.TheConstants.{MAX_PER_GRANULE};
ghost use Rattle.mt_marks.specs.Entries.{AreMarks};
ghost use Rattle.mt_files.specs.NamedFiles.{part_folder};
ghost use Rattle.mt_files.specs.ShelfResults.{ReadFails};
ghost use Rattle.mt_granules.specs.PayloadReading.{granules_of};
ghost use Rattle.mt_marked_file.specs.Opening.{AreFilesOf, ShowsFrom, marked_in, marks_cost, marks_file_reading, opening};

use crate::error::file_error;
use crate::marked_file::MarkedFile;
use crate::raw::marks_in;
use crate::whole_file::read_whole;
use mt_fault::{FileBytes, Why};
use mt_files::{find, path_of, size_of};
use mt_marks::Marks;
use mt_shelf::{CallError, Entry, ReadError, Shelf};
use mt_types::NoMemory;
use std::alloc::Global;

impl MarkedFile {
    /// Opens a data file of a part by its marks file, which has so many marks for each granule. The marks file isn't
    /// read where it is one of the files at hand; the data file isn't read at all.
    #[tactic(auto, using(crate::proofs::ShelfLemmas::no_data_shows, crate::proofs::ShelfLemmas::marks_fail_so, crate::proofs::ShelfLemmas::opened_so, crate::proofs::ShelfLemmas::kept_then, crate::proofs::ShelfLemmas::fault_after, crate::proofs::TakenLemmas::reads_none, mt_files::proofs::ListingLemmas::listed_form))]
    pub fn open<F: Shelf>(
        alloc: Global,
        part: &str,
        listing: &[Entry],
        at_hand: &[FileBytes],
        data_name: &[u8],
        marks_name: &[u8],
        per_granule: u64,
        shelf: &mut F,
    ) -> Result<MarkedFile, ReadError>
        requires path { IsTrue (is_path part.now) }
        requires form { IsListing listing.now }
        requires known { IfSome (files_of (F.state shelf.old)) (λ files. listing.now ≡ entries_below part.now files) }
        requires at_hand { IfSome (files_of (F.state shelf.old)) (λ files. AreFilesOf at_hand.now (part_folder part.now files)) }
        requires some { 1 ≤ per_granule }
        requires few { per_granule ≤ MAX_PER_GRANULE }
        ensures opens { IfSome (files_of (F.state shelf.old)) (λ files.
            ShowsFrom marked_in result (opening (part_folder part.now files) data_name.now marks_name.now per_granule)) }
        ensures path { IfOk result (λ file. string_bytes file.path ≡ joined_path part.now data_name.now) }
        ensures taken { ReadsUpTo (marks_cost at_hand.now listing.now marks_name.now) (F.state shelf.old) (F.state shelf.new) }
        ensures cause { ReadFails (F.faults shelf.old) (F.faults shelf.new) result }
    {
        let Some(size) = size_of(listing, data_name) else {
            return Err(file_error(alloc, data_name, Why::Missing));
        };
        match read_marks(
            alloc,
            part,
            listing,
            at_hand,
            marks_name,
            per_granule,
            shelf,
        ) {
            Ok(marks) => with_path(alloc, part, data_name, size, marks),
            Err(error) => Err(error),
        }
    }
}

/// The data file of a name, of this size and with these marks.
#[tactic(auto, using(crate::proofs::ShelfLemmas::path_below))]
fn with_path(
    alloc: Global,
    part: &str,
    name: &[u8],
    size: u64,
    marks: Marks,
) -> Result<MarkedFile, ReadError>
    requires path { IsTrue (is_path part.now) }
    requires name { IsTrue (is_file_name name.now) }
    requires complete { AreMarks marks }
    requires some { 2 ≤ length marks.rows }
    requires few { sum (granules_of marks) ≤ MAX_ROWS }
    ensures gives { (reading : Judged (ℕ × Marks)) → reading ≡ Ok (size, marks) → ShowsFrom marked_in result reading }
    ensures path { IfOk result (λ file. string_bytes file.path ≡ joined_path part.now name.now) }
    ensures cause { (n : ℕ) → ReadFails n n result }
{
    match path_of(alloc, part, name) {
        Ok(path) => Ok(MarkedFile { path, size, marks }),
        Err(NoMemory) => Err(ReadError::NoMemory),
    }
}

/// The entries of a marks file of a part.
#[tactic(auto, using(crate::proofs::ShelfLemmas::at_hand_shows, crate::proofs::ShelfLemmas::read_shows, crate::proofs::ShelfLemmas::none_shows, crate::proofs::ShelfLemmas::costs_reading, crate::proofs::ShelfLemmas::kept_then, crate::proofs::ShelfLemmas::fault_after, crate::proofs::TakenLemmas::reads_none))]
fn read_marks<F: Shelf>(
    alloc: Global,
    part: &str,
    listing: &[Entry],
    at_hand: &[FileBytes],
    name: &[u8],
    per_granule: u64,
    shelf: &mut F,
) -> Result<Marks, ReadError>
    requires path { IsTrue (is_path part.now) }
    requires form { IsListing listing.now }
    requires known { IfSome (files_of (F.state shelf.old)) (λ files. listing.now ≡ entries_below part.now files) }
    requires at_hand { IfSome (files_of (F.state shelf.old)) (λ files. AreFilesOf at_hand.now (part_folder part.now files)) }
    requires some { 1 ≤ per_granule }
    requires few { per_granule ≤ MAX_PER_GRANULE }
    ensures reads { IfSome (files_of (F.state shelf.old)) (λ files.
        ShowsFrom (λ marks. marks) result (marks_file_reading (part_folder part.now files) name.now per_granule)) }
    ensures complete { IfOk result AreMarks }
    ensures some { IfOk result (λ marks. 2 ≤ length marks.rows) }
    ensures few { IfOk result (λ marks. sum (granules_of marks) ≤ MAX_ROWS) }
    ensures taken { ReadsUpTo (marks_cost at_hand.now listing.now name.now) (F.state shelf.old) (F.state shelf.new) }
    ensures cause { ReadFails (F.faults shelf.old) (F.faults shelf.new) result }
{
    if let Some(bytes) = find(at_hand, name) {
        return marks_in(alloc, name, bytes, per_granule);
    }
    match read_whole(alloc, part, name, listing, shelf) {
        Ok(Some(bytes)) => marks_in(alloc, name, bytes.as_slice(), per_granule),
        Ok(None) => Err(file_error(alloc, name, Why::Missing)),
        Err(CallError::Failed) => Err(ReadError::Shelf),
        Err(CallError::NoMemory) => Err(ReadError::NoMemory),
    }
}
