//! The writer's folder of sorted rows, within the limit on a folder.

ghost use Rattle.std.specs.Prelude.{◌≡◌, ◌≢◌, [], ◌<◌, All, IfOk, IsSorted, nat_lt};
ghost use Rattle.mt_shelf.specs.Held.{HasName};
ghost use Rattle.mt_defs.specs.Partition.{HaveOnePartition};
ghost use Rattle.mt_defs.specs.Rows.{RowFits, key_cmp};
ghost use Rattle.mt_defs.specs.Writer.{written_folder};
ghost use Rattle.mt_command.specs.Status.{GivesOutcome};
ghost use Rattle.mt_command.specs.Steps.{StepCausedBy, of_nothing};
ghost use Rattle.mt_command.specs.Targets.{folder_bytes, within_limit};

use crate::limits::MAX_FOLDER;
use crate::status::{Status, What};
use mt_build::build;
use mt_fault::FileBytes;
use mt_shelf::Gate;
use mt_table::Table;
use mt_types::{List, Row};
use mt_workers::Workers;
use std::alloc::Global;
use std::thread::Threads;

/// Whether the files together are above the limit on a folder.
fn is_above_limit(folder: &[FileBytes]) -> bool
    ensures { result ≡ nat_lt MAX_FOLDER (folder_bytes folder.now) }
{
    let mut bytes = 0u64;
    for file in folder {
        bytes = bytes.saturating_add(file.bytes.len() as u64);
    }
    MAX_FOLDER < bytes
}

/// The writer's folder of rows in key order, or the refusal of one that is too large.
pub fn sorted_folder<R: Threads + Sync, G: Gate + Sync>(
    rt: &R,
    alloc: Global,
    table: &Table,
    rows: &[Row],
    workers: Workers,
    gate: &G,
) -> Result<List<FileBytes>, Status>
    requires some { rows.now ≢ [] }
    requires fit { All (RowFits table.now.columns) rows.now }
    requires ordered { IsSorted (key_cmp table.now.sort) rows.now }
    requires one_partition { HaveOnePartition table.now rows.now }
    ensures gives { GivesOutcome result (within_limit (written_folder table.now rows.now)) }
    ensures names { IfOk result (λ folder. All HasName folder) }
    ensures cause { StepCausedBy result of_nothing of_nothing }
{
    let Ok(folder) = build(rt, alloc, table, rows, workers, gate) else {
        return Err(Status::NoMemory);
    };
    if is_above_limit(folder.as_slice()) {
        return Err(Status::TooMuch {
            what: What::Part,
            limit: MAX_FOLDER,
        });
    }
    Ok(folder)
}
