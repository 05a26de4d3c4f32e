//! The folder of the rows of all inputs.

ghost use Rattle.std.specs.Prelude.{◌≢◌, [], All, IfOk};
ghost use Rattle.mt_shelf.specs.Held.{HasName};
ghost use Rattle.mt_defs.specs.Sorting.{merged_rows};
ghost use Rattle.mt_command.specs.Status.{GivesOutcome};
ghost use Rattle.mt_command.specs.Steps.{StepCausedBy, of_nothing};
ghost use Rattle.mt_merging.specs.Inputs.{AreInputs, folder_of_rows};

use mt_command::{Status, few_cells, sorted_folder};
use mt_fault::FileBytes;
use mt_merge::merge_rows;
use mt_shelf::Gate;
use mt_table::Table;
use mt_types::{List, Row};
use mt_workers::Workers;
use std::alloc::Global;
use std::thread::Threads;

/// The folder of the inputs' rows in key order. No row is copied.
pub(crate) fn folder_of<R: Threads + Sync, G: Gate + Sync>(
    rt: &R,
    alloc: Global,
    table: &Table,
    read: List<List<Row>>,
    workers: Workers,
    gate: &G,
) -> Result<List<FileBytes>, Status>
    requires inputs { AreInputs table.now read }
    requires some { read ≢ [] }
    ensures gives { GivesOutcome result (folder_of_rows table.now (merged_rows table.now.sort read)) }
    ensures names { IfOk result (λ folder. All HasName folder) }
    ensures cause { StepCausedBy result of_nothing of_nothing }
{
    let Ok(rows) = merge_rows(alloc, table, read) else {
        return Err(Status::NoMemory);
    };
    few_cells(alloc, table, rows.as_slice())?;
    sorted_folder(rt, alloc, table, rows.as_slice(), workers, gate)
}
