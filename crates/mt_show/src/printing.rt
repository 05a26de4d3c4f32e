//! The command `show`.

ghost use Rattle.std.specs.Prelude.{◌≡◌, ◌≤◌, IfSome, IsTrue};
ghost use Rattle.mt_shelf.specs.Files.{IsListing, entries_below};
ghost use Rattle.mt_shelf.specs.Paths.{is_path};
ghost use Rattle.mt_shelf.specs.State.{files_of};
ghost use Rattle.mt_command.specs.Commands.{PrintsTextOf};
ghost use Rattle.mt_command.specs.Outcomes.{ReturnsOutcome};
ghost use Rattle.mt_command.specs.Plans.{world};
ghost use Rattle.mt_command.specs.Steps.{StepCausedBy, of_shelf};
ghost use Rattle.mt_show.specs.Show.{listed_text, part_text, show_steps};

use crate::read::{files_text, judge_files, read_files};
use mt_command::{Status, finished, list_part, print, read_table};
use mt_shelf::{Entry, Shelf, Sink, Source};
use mt_table::Table;
use mt_types::List;
use std::alloc::Global;

/// The text of a part that is listed so, or its refusal.
fn listed_text<F: Shelf>(
    alloc: Global,
    shelf: &mut F,
    table: &Table,
    part: &str,
    listing: &[Entry],
) -> Result<List<u8>, Status>
    requires path { IsTrue (is_path part.now) }
    requires form { IsListing listing.now }
    requires known { IfSome (files_of (F.state shelf.old)) (λ files. listing.now ≡ entries_below part.now files) }
    ensures gives { IfSome (files_of (F.state shelf.old)) (λ files. ReturnsOutcome result (listed_text table.now part.now files)) }
    ensures files { files_of (F.state shelf.new) ≡ files_of (F.state shelf.old) }
    ensures cause { StepCausedBy result (of_shelf (F.faults shelf.old)) (of_shelf (F.faults shelf.new)) }
{
    let files = match read_files(alloc, shelf, table, part, listing) {
        Ok(files) => files,
        Err(status) => return Err(status),
    };
    let accepted = match judge_files(alloc, table, part, &files, listing) {
        Ok(accepted) => accepted,
        Err(status) => return Err(status),
    };
    match files_text(alloc, table, &files, &accepted) {
        Ok(text) => Ok(text),
        Err(_) => Err(Status::NoMemory),
    }
}

/// The text of a part, or its refusal.
fn part_text<F: Shelf>(
    alloc: Global,
    shelf: &mut F,
    table: &Table,
    part: &str,
) -> Result<List<u8>, Status>
    requires { IsTrue (is_path part.now) }
    ensures gives { IfSome (files_of (F.state shelf.old)) (λ files. ReturnsOutcome result (part_text table.now part.now files)) }
    ensures files { files_of (F.state shelf.new) ≡ files_of (F.state shelf.old) }
    ensures cause { StepCausedBy result (of_shelf (F.faults shelf.old)) (of_shelf (F.faults shelf.new)) }
{
    let listing = match list_part(alloc, shelf, part) {
        Ok(listing) => listing,
        Err(status) => return Err(status),
    };
    listed_text(alloc, shelf, table, part, listing.as_slice())
}

/// What `show` prints, or its refusal.
fn table_part_text<F: Shelf>(
    alloc: Global,
    shelf: &mut F,
    path: &str,
    part: &str,
) -> Result<List<u8>, Status>
    requires path { IsTrue (is_path path.now) }
    requires part { IsTrue (is_path part.now) }
    ensures gives { IfSome (files_of (F.state shelf.old)) (λ files. ReturnsOutcome result (show_steps path.now part.now files)) }
    ensures files { files_of (F.state shelf.new) ≡ files_of (F.state shelf.old) }
    ensures cause { StepCausedBy result (of_shelf (F.faults shelf.old)) (of_shelf (F.faults shelf.new)) }
{
    let table = match read_table(alloc, shelf, path) {
        Ok(table) => table,
        Err(status) => return Err(status),
    };
    part_text(alloc, shelf, &table, part)
}

/// The command `show`: prints the layout of a part, what it stores, and the key of each granule.
pub fn show<S: Source, K: Sink, F: Shelf>(
    alloc: Global,
    path: &str,
    part: &str,
    _input: &mut S,
    output: &mut K,
    shelf: &mut F,
) -> Status
    requires path { IsTrue (is_path path.now) }
    requires part { IsTrue (is_path part.now) }
    ensures { PrintsTextOf (show_steps path.now part.now)
        (world (S.left _input.old) (K.written output.old) (files_of (F.state shelf.old))
        (S.faults _input.old) (K.faults output.old) (F.faults shelf.old))
        (world (S.left _input.new) (K.written output.new) (files_of (F.state shelf.new))
        (S.faults _input.new) (K.faults output.new) (F.faults shelf.new)) result }
{
    match table_part_text(alloc, shelf, path, part) {
        Ok(text) => finished(print(output, text.as_slice())),
        Err(status) => status,
    }
}
