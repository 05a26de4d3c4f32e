//! The two parts of a trial: one of the rows at even places, and one of those at odd places.

ghost use Rattle.std.specs.Prelude.{◌≡◌, ◌≤◌, ◌<◌, All, IfOk, Some};
ghost use Rattle.mt_shelf.specs.Held.{HasName};
ghost use Rattle.mt_shelf.specs.State.{files_of};
ghost use Rattle.mt_command.specs.Status.{GivesOutcome};
ghost use Rattle.mt_command.specs.Steps.{StepCausedBy, of_nothing};
ghost use Rattle.mt_trial.specs.Tables.{trial_columns, trial_partition};
ghost use Rattle.mt_trial.specs.Steps.{half_folder, two_parts};
ghost use Rattle.mt_trial.specs.declared.rows.TheConstants.{MAX_TRIAL_ROWS};

use crate::rows::half_rows;
use mt_build::sort_rows;
use mt_command::{Status, sorted_folder, store_folder};
use mt_fault::FileBytes;
use mt_shelf::{FileSet, Gate, Shelf, SureShelf};
use mt_table::Table;
use mt_types::{List, NoMemory};
use mt_workers::Workers;
use std::alloc::Global;
use std::thread::Threads;

/// The bytes that a read of the trial's shelf gives, at most.
const MAX_READ: usize = 1_048_576;

/// The writer's folder of the rows at even places (a remainder of 0), or at odd ones (1).
pub(crate) fn half_folder<R: Threads + Sync, G: Gate + Sync>(
    rt: &R,
    alloc: Global,
    table: &Table,
    number: u64,
    rows: u64,
    remainder: u64,
    workers: Workers,
    gate: &G,
) -> Result<List<FileBytes>, Status>
    requires columns { table.now.columns ≡ trial_columns }
    requires partition { table.now.partition ≡ trial_partition }
    requires some { 2 ≤ rows }
    requires most { rows ≤ MAX_TRIAL_ROWS }
    requires half { remainder < 2 }
    ensures gives { GivesOutcome result (half_folder table.now number rows remainder) }
    ensures names { IfOk result (λ folder. All HasName folder) }
    ensures cause { StepCausedBy result of_nothing of_nothing }
{
    let Ok(half) = half_rows(alloc, number, rows, remainder) else {
        return Err(Status::NoMemory);
    };
    let Ok(sorted) = sort_rows(alloc, table, half) else {
        return Err(Status::NoMemory);
    };
    sorted_folder(rt, alloc, table, sorted.as_slice(), workers, gate)
}

/// A shelf in memory that has both parts, and no other file.
pub(crate) fn two_parts(
    alloc: Global,
    even: &[FileBytes],
    odd: &[FileBytes],
) -> Result<SureShelf, NoMemory>
    requires even { All HasName even.now }
    requires odd { All HasName odd.now }
    ensures { IfOk result (λ shelf. files_of (⟦<SureShelf as Shelf>⟧.state shelf) ≡ Some (two_parts even.now odd.now)) }
{
    let mut shelf = SureShelf::new(alloc, FileSet::new(alloc).into_files(), MAX_READ);
    let Ok(()) = store_folder(&mut shelf, "even", even) else {
        return Err(NoMemory);
    };
    let Ok(()) = store_folder(&mut shelf, "odd", odd) else {
        return Err(NoMemory);
    };
    Ok(shelf)
}
