//! What is tried before any input is read: the inputs and the target.

ghost use Rattle.std.specs.Prelude.{◌≡◌, All, IfSome, IsTrue, map};
ghost use Rattle.std.specs.String.{string_bytes};
ghost use Rattle.mt_shelf.specs.Files.{entries_below, listing_of};
ghost use Rattle.mt_shelf.specs.Paths.{is_path};
ghost use Rattle.mt_shelf.specs.State.{files_of};
ghost use Rattle.mt_command.specs.Status.{GivesOutcome};
ghost use Rattle.mt_command.specs.Steps.{StepCausedBy, of_shelf};
ghost use Rattle.mt_merging.specs.Inputs.{are_ready, are_there, some_files};

use mt_command::{Status, free_target, no_part, status_of_shelf};
use mt_shelf::Shelf;
use std::alloc::Global;

/// Refuses a part of which there is no file.
fn is_there<F: Shelf>(alloc: Global, shelf: &mut F, part: &str) -> Result<(), Status>
    requires { IsTrue (is_path part.now) }
    ensures gives { IfSome (files_of (F.state shelf.old))
        (λ files. GivesOutcome result (some_files part.now (listing_of (entries_below part.now files)))) }
    ensures state { F.state shelf.new ≡ F.state shelf.old }
    ensures cause { StepCausedBy result (of_shelf (F.faults shelf.old)) (of_shelf (F.faults shelf.new)) }
{
    match shelf.list(part) {
        Ok(Some(_)) => Ok(()),
        Ok(None) => Err(no_part(alloc, part)),
        Err(error) => Err(status_of_shelf(error)),
    }
}

/// Refuses the first of some parts of which there is no file.
fn are_there<F: Shelf>(alloc: Global, shelf: &mut F, parts: &[String]) -> Result<(), Status>
    requires { All (λ part. IsTrue (is_path (string_bytes part))) parts.now }
    ensures gives { IfSome (files_of (F.state shelf.old))
        (λ files. GivesOutcome result (are_there (map string_bytes parts.now) files)) }
    ensures state { F.state shelf.new ≡ F.state shelf.old }
    ensures cause { StepCausedBy result (of_shelf (F.faults shelf.old)) (of_shelf (F.faults shelf.new)) }
{
    for part in parts {
        match is_there(alloc, shelf, part.as_str()) {
            Ok(()) => {}
            Err(status) => return Err(status),
        }
    }
    Ok(())
}

/// Refuses the first of the inputs that isn't there, and then a target that isn't free.
pub(crate) fn are_ready<F: Shelf>(
    alloc: Global,
    shelf: &mut F,
    target: &str,
    inputs: &[String],
) -> Result<(), Status>
    requires target { IsTrue (is_path target.now) }
    requires inputs { All (λ part. IsTrue (is_path (string_bytes part))) inputs.now }
    ensures gives { IfSome (files_of (F.state shelf.old))
        (λ files. GivesOutcome result (are_ready target.now (map string_bytes inputs.now) files)) }
    ensures files { files_of (F.state shelf.new) ≡ files_of (F.state shelf.old) }
    ensures cause { StepCausedBy result (of_shelf (F.faults shelf.old)) (of_shelf (F.faults shelf.new)) }
{
    match are_there(alloc, shelf, inputs) {
        Ok(()) => free_target(shelf, target),
        Err(status) => Err(status),
    }
}
