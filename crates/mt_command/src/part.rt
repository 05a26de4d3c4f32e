//! The steps that read a table and check a part of it.
ghost use Rattle.std.specs.Prelude.{◌≡◌, ◌≤◌, All, IfOk, IfSome, IsTrue, length, nat_lt};
ghost use Rattle.mt_defs.specs.Partition.{HaveOnePartition};
ghost use Rattle.mt_defs.specs.Projections.{base_of};
ghost use Rattle.mt_defs.specs.Rows.{ArePartRows};
ghost use Rattle.mt_shelf.specs.Files.{IsListing, entries_below};
ghost use Rattle.mt_shelf.specs.Paths.{is_path};
ghost use Rattle.mt_shelf.specs.State.{files_of};
ghost use Rattle.mt_command.specs.Outcomes.{ReturnsOutcome, refused_by};
ghost use Rattle.mt_command.specs.Parts.{listed_bytes, listing_in, part_checks, part_steps, table_part_steps};
ghost use Rattle.mt_command.specs.Status.{GivesOutcome, IsNamed};
ghost use Rattle.mt_command.specs.declared.status.Status.TheVariants.{AtFault, NoPart};
ghost use Rattle.mt_command.specs.Steps.{StepCausedBy, of_shelf};

use crate::limits::MAX_FOLDER;
use crate::status::{Status, What, status_of_shelf};
use crate::table::read_table;
use mt_check::check;
use mt_definition::Accepted;
use mt_fault::Fault;
use mt_shelf::{Entry, ReadError, Shelf};
use mt_table::Table;
use mt_types::List;
use std::alloc::Global;

/// Whether the listed files together are above the limit on a folder.
fn are_above_limit(listing: &[Entry]) -> bool
    ensures { result ≡ nat_lt MAX_FOLDER (listed_bytes listing.now) }
{
    let mut bytes = 0u64;
    for entry in listing {
        bytes = bytes.saturating_add(entry.size);
    }
    MAX_FOLDER < bytes
}

/// The refusal of a part of which there is no file.
pub fn no_part(alloc: Global, part: &str) -> Status
    ensures { IsNamed (NoPart part.now) result }
{
    match List::of_bytes(alloc, part.as_bytes()) {
        Ok(part) => Status::NoPart { part },
        Err(_) => Status::NoMemory,
    }
}

/// The refusal of a part at fault.
pub fn at_fault(alloc: Global, part: &str, fault: Fault) -> Status
    ensures { IsNamed (AtFault part.now fault) result }
{
    match List::of_bytes(alloc, part.as_bytes()) {
        Ok(part) => Status::AtFault { part, fault },
        Err(_) => Status::NoMemory,
    }
}

/// Lists the files below a part: at least one, and together within the limit on a folder.
pub fn list_part<F: Shelf>(alloc: Global, shelf: &mut F, part: &str) -> Result<List<Entry>, Status>
    requires { IsTrue (is_path part.now) }
    ensures gives { IfSome (files_of (F.state shelf.old)) (λ files. GivesOutcome result (listing_in part.now files)) }
    ensures known { IfSome (files_of (F.state shelf.old)) (λ files. IfOk result (λ listing. listing ≡ entries_below part.now files)) }
    ensures form { IfOk result IsListing }
    ensures few { IfOk result (λ listing. listed_bytes listing ≤ MAX_FOLDER) }
    ensures state { F.state shelf.new ≡ F.state shelf.old }
    ensures cause { StepCausedBy result (of_shelf (F.faults shelf.old)) (of_shelf (F.faults shelf.new)) }
{
    let listing = match shelf.list(part) {
        Ok(Some(listing)) => listing,
        Ok(None) => return Err(no_part(alloc, part)),
        Err(error) => return Err(status_of_shelf(error)),
    };
    if are_above_limit(listing.as_slice()) {
        return Err(Status::TooMuch {
            what: What::Part,
            limit: MAX_FOLDER,
        });
    }
    Ok(listing)
}

/// Checks the listed files of a part.
#[tactic(auto, using(mt_defs::proofs::RowLemmas::rows_length))]
pub fn check_listed<F: Shelf>(
    alloc: Global,
    shelf: &mut F,
    table: &Table,
    part: &str,
    listing: &[Entry],
) -> Result<Accepted, Status>
    requires path { IsTrue (is_path part.now) }
    requires form { IsListing listing.now }
    requires few { listed_bytes listing.now ≤ MAX_FOLDER }
    requires known { IfSome (files_of (F.state shelf.old)) (λ files. listing.now ≡ entries_below part.now files) }
    ensures gives { IfSome (files_of (F.state shelf.old))
        (λ files. ReturnsOutcome result (refused_by (AtFault part.now) (part_checks table.now part.now files))) }
    ensures long { IfOk result (λ accepted. All (λ row. length row ≡ length table.now.columns) accepted.rows) }
    ensures rows { IfOk result (λ accepted. ArePartRows (base_of table.now) accepted.rows) }
    ensures one { IfOk result (λ accepted. HaveOnePartition table.now accepted.rows) }
    ensures files { files_of (F.state shelf.new) ≡ files_of (F.state shelf.old) }
    ensures cause { StepCausedBy result (of_shelf (F.faults shelf.old)) (of_shelf (F.faults shelf.new)) }
{
    match check(alloc, table, part, listing, shelf) {
        Ok(accepted) => Ok(accepted),
        Err(ReadError::AtFault(fault)) => Err(at_fault(alloc, part, fault)),
        Err(ReadError::Shelf) => Err(Status::ShelfFault),
        Err(ReadError::NoMemory) => Err(Status::NoMemory),
    }
}

/// The rows and granules for which a part stands.
pub fn accept_part<F: Shelf>(
    alloc: Global,
    shelf: &mut F,
    table: &Table,
    part: &str,
) -> Result<Accepted, Status>
    requires { IsTrue (is_path part.now) }
    ensures gives { IfSome (files_of (F.state shelf.old))
        (λ files. ReturnsOutcome result (part_steps table.now part.now files)) }
    ensures long { IfOk result (λ accepted. All (λ row. length row ≡ length table.now.columns) accepted.rows) }
    ensures rows { IfOk result (λ accepted. ArePartRows (base_of table.now) accepted.rows) }
    ensures one { IfOk result (λ accepted. HaveOnePartition table.now accepted.rows) }
    ensures files { files_of (F.state shelf.new) ≡ files_of (F.state shelf.old) }
    ensures cause { StepCausedBy result (of_shelf (F.faults shelf.old)) (of_shelf (F.faults shelf.new)) }
{
    let listing = match list_part(alloc, shelf, part) {
        Ok(listing) => listing,
        Err(status) => return Err(status),
    };
    check_listed(alloc, shelf, table, part, listing.as_slice())
}

/// Reads the table of a file, and the rows and granules for which a part of it stands.
pub fn read_part<F: Shelf>(
    alloc: Global,
    shelf: &mut F,
    path: &str,
    part: &str,
) -> Result<(Table, Accepted), Status>
    requires path { IsTrue (is_path path.now) }
    requires part { IsTrue (is_path part.now) }
    ensures gives { IfSome (files_of (F.state shelf.old))
        (λ files. ReturnsOutcome result (table_part_steps path.now part.now files)) }
    ensures long { IfOk result (λ read. All (λ row. length row ≡ length read.0.columns) read.1.rows) }
    ensures files { files_of (F.state shelf.new) ≡ files_of (F.state shelf.old) }
    ensures cause { StepCausedBy result (of_shelf (F.faults shelf.old)) (of_shelf (F.faults shelf.new)) }
{
    let table = match read_table(alloc, shelf, path) {
        Ok(table) => table,
        Err(status) => return Err(status),
    };
    match accept_part(alloc, shelf, &table, part) {
        Ok(accepted) => Ok((table, accepted)),
        Err(status) => Err(status),
    }
}
