//! From lines to the folder of their rows.
ghost use Rattle.std.specs.Prelude.{◌≢◌, [], ◌≤◌, IfOk, All};
ghost use Rattle.mt_table.specs.declared.limits.TheConstants.{MAX_CELLS};
ghost use Rattle.mt_shelf.specs.Held.{HasName};
ghost use Rattle.mt_defs.specs.Rows.{RowFits, cell_count};
ghost use Rattle.mt_command.specs.Status.{GivesOutcome};
ghost use Rattle.mt_command.specs.Steps.{StepCausedBy, of_nothing};
ghost use Rattle.mt_writing.specs.Write.{rows_of_text, folder_of_text};

use crate::partition::lines_partition;
use mt_build::sort_rows;
use mt_command::{Status, few_cells, sorted_folder, status_of_rows};
use mt_fault::FileBytes;
use mt_shelf::Gate;
use mt_table::Table;
use mt_tsv::read_rows;
use mt_types::{List, Row};
use mt_workers::Workers;
use std::alloc::Global;
use std::thread::Threads;

/// The rows of a text.
#[tactic(auto, unfolding(crate::specs::Write::rows_of_text))]
fn rows_of_text(alloc: Global, table: &Table, text: &[u8]) -> Result<List<Row>, Status>
    requires { text.now ≢ [] }
    ensures gives { GivesOutcome result (rows_of_text table.now text.now) }
    ensures some { IfOk result (λ rows. rows ≢ []) }
    ensures fit { IfOk result (All (RowFits table.now.columns)) }
    ensures few { IfOk result (λ rows. cell_count table.now.columns rows ≤ MAX_CELLS) }
    ensures cause { StepCausedBy result of_nothing of_nothing }
{
    match read_rows(alloc, table, text) {
        Ok(rows) => Ok(rows),
        Err(error) => Err(status_of_rows(error)),
    }
}

/// The folder of the rows of a text.
#[tactic(auto, unfolding(crate::specs::Write::folder_of_text))]
pub(crate) fn folder_of_text<R: Threads + Sync, G: Gate + Sync>(
    rt: &R,
    alloc: Global,
    table: &Table,
    text: &[u8],
    workers: Workers,
    gate: &G,
) -> Result<List<FileBytes>, Status>
    requires text { text.now ≢ [] }
    ensures gives { GivesOutcome result (folder_of_text table.now text.now) }
    ensures names { IfOk result (λ folder. All HasName folder) }
    ensures cause { StepCausedBy result of_nothing of_nothing }
{
    let rows = rows_of_text(alloc, table, text)?;
    few_cells(alloc, table, rows.as_slice())?;
    lines_partition(table, rows.as_slice())?;
    let Ok(sorted) = sort_rows(alloc, table, rows) else {
        return Err(Status::NoMemory);
    };
    sorted_folder(rt, alloc, table, sorted.as_slice(), workers, gate)
}
