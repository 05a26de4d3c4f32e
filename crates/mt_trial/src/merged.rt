//! The two parts of a trial are merged, and the merge is checked and queried.

ghost use Rattle.std.specs.Prelude.{◌≡◌, ◌≢◌, [], All, IfOk, IfSome, IsTrue, map};
ghost use Rattle.std.specs.String.{string_bytes};
ghost use Rattle.mt_shelf.specs.Paths.{is_path};
ghost use Rattle.mt_shelf.specs.State.{files_of};
ghost use Rattle.mt_command.specs.Outcomes.{ReturnsOutcome};
ghost use Rattle.mt_command.specs.Steps.{StepCausedBy, of_shelf};
ghost use Rattle.mt_trial.specs.Steps.{half_names, merge_answers, part_answers};

use crate::answers::answers_of;
use mt_command::{Status, accept_part, store_folder};
use mt_merging::merge_parts;
use mt_shelf::{Gate, Shelf};
use mt_table::Table;
use mt_types::{List, NoMemory};
use mt_workers::Workers;
use std::alloc::Global;
use std::thread::Threads;

/// The names of the two parts.
fn half_names(alloc: Global) -> Result<Vec<String>, NoMemory>
    ensures names { IfOk result (λ inputs. map string_bytes inputs.items ≡ half_names) }
    ensures paths { IfOk result (λ inputs. All (λ part. IsTrue (is_path (string_bytes part))) inputs.items) }
    ensures some { IfOk result (λ inputs. inputs.items ≢ []) }
{
    let mut inputs = Vec::new(alloc);
    inputs.push(String::from_str(alloc, "even")?)?;
    inputs.push(String::from_str(alloc, "odd")?)?;
    Ok(inputs)
}

/// What is printed of the merged part, once it is checked.
fn part_answers<F: Shelf>(alloc: Global, shelf: &mut F, table: &Table) -> Result<List<u8>, Status>
    ensures gives { IfSome (files_of (F.state shelf.old)) (λ files. ReturnsOutcome result (part_answers table.now files)) }
    ensures cause { StepCausedBy result (of_shelf (F.faults shelf.old)) (of_shelf (F.faults shelf.new)) }
{
    let accepted = match accept_part(alloc, shelf, table, "merged") {
        Ok(accepted) => accepted,
        Err(status) => return Err(status),
    };
    answers_of(alloc, table, accepted.rows.as_slice())
}

/// Merges the two parts as `merge` does, and stores the merge beside them.
pub(crate) fn merge_answers<R: Threads + Sync, F: Shelf, G: Gate + Sync>(
    rt: &R,
    alloc: Global,
    shelf: &mut F,
    table: &Table,
    workers: Workers,
    gate: &G,
) -> Result<List<u8>, Status>
    ensures gives { IfSome (files_of (F.state shelf.old)) (λ files. ReturnsOutcome result (merge_answers table.now files)) }
    ensures cause { StepCausedBy result (of_shelf (F.faults shelf.old)) (of_shelf (F.faults shelf.new)) }
{
    let Ok(inputs) = half_names(alloc) else {
        return Err(Status::NoMemory);
    };
    let folder = match merge_parts(
        rt,
        alloc,
        table,
        "merged",
        inputs.as_slice(),
        workers,
        gate,
        shelf,
    ) {
        Ok(folder) => folder,
        Err(status) => return Err(status),
    };
    match store_folder(shelf, "merged", folder.as_slice()) {
        Ok(()) => part_answers(alloc, shelf, table),
        Err(status) => Err(status),
    }
}
