//! The command `merge`.

ghost use Rattle.std.specs.Prelude.{◌≡◌, ◌≢◌, [], All, IfOk, IfSome, IsTrue, length, map};
ghost use Rattle.std.specs.String.{string_bytes};
ghost use Rattle.mt_shelf.specs.Held.{HasName};
ghost use Rattle.mt_shelf.specs.Paths.{is_path};
ghost use Rattle.mt_shelf.specs.State.{files_of};
ghost use Rattle.mt_command.specs.Commands.{PublishesFolderOf};
ghost use Rattle.mt_command.specs.Outcomes.{ReturnsOutcome};
ghost use Rattle.mt_command.specs.Plans.{world};
ghost use Rattle.mt_command.specs.Steps.{StepCausedBy, of_shelf};
ghost use Rattle.mt_merging.specs.Merge.{merge_steps, merge_table_steps};

use crate::folder::folder_of;
use crate::places::are_ready;
use crate::reading::read_inputs;
use mt_command::{Status, finished, read_table, store_folder};
use mt_fault::FileBytes;
use mt_shelf::{Gate, Shelf, Sink, Source};
use mt_table::Table;
use mt_types::List;
use mt_workers::Workers;
use std::alloc::Global;
use std::thread::Threads;

/// The folder of all rows of parts of a table, as `merge` publishes it at a target, or the first refusal. The
/// same for any number of workers. An input that is named twice is read twice.
pub fn merge_parts<R: Threads + Sync, F: Shelf, G: Gate + Sync>(
    rt: &R,
    alloc: Global,
    table: &Table,
    target: &str,
    inputs: &[String],
    workers: Workers,
    gate: &G,
    shelf: &mut F,
) -> Result<List<FileBytes>, Status>
    requires target { IsTrue (is_path target.now) }
    requires inputs { All (λ part. IsTrue (is_path (string_bytes part))) inputs.now }
    requires some { inputs.now ≢ [] }
    ensures gives { IfSome (files_of (F.state shelf.old))
        (λ files. ReturnsOutcome result (merge_table_steps table.now target.now (map string_bytes inputs.now) files)) }
    ensures names { IfOk result (λ folder. All HasName folder) }
    ensures files { files_of (F.state shelf.new) ≡ files_of (F.state shelf.old) }
    ensures cause { StepCausedBy result (of_shelf (F.faults shelf.old)) (of_shelf (F.faults shelf.new)) }
{
    match are_ready(alloc, shelf, target, inputs) {
        Ok(()) => {}
        Err(status) => return Err(status),
    }
    let read = match read_inputs(alloc, shelf, table, inputs) {
        Ok(read) => read,
        Err(status) => return Err(status),
    };
    folder_of(rt, alloc, table, read, workers, gate)
}

/// Reads the table of a file, and makes the folder of parts of it.
fn merged_folder<R: Threads + Sync, F: Shelf, G: Gate + Sync>(
    rt: &R,
    alloc: Global,
    path: &str,
    target: &str,
    inputs: &[String],
    workers: Workers,
    gate: &G,
    shelf: &mut F,
) -> Result<List<FileBytes>, Status>
    requires path { IsTrue (is_path path.now) }
    requires target { IsTrue (is_path target.now) }
    requires inputs { All (λ part. IsTrue (is_path (string_bytes part))) inputs.now }
    requires some { inputs.now ≢ [] }
    ensures gives { IfSome (files_of (F.state shelf.old))
        (λ files. ReturnsOutcome result (merge_steps path.now target.now (map string_bytes inputs.now) files)) }
    ensures names { IfOk result (λ folder. All HasName folder) }
    ensures files { files_of (F.state shelf.new) ≡ files_of (F.state shelf.old) }
    ensures cause { StepCausedBy result (of_shelf (F.faults shelf.old)) (of_shelf (F.faults shelf.new)) }
{
    match read_table(alloc, shelf, path) {
        Ok(table) => merge_parts(rt, alloc, &table, target, inputs, workers, gate, shelf),
        Err(status) => Err(status),
    }
}

/// The command `merge TABLE WORKERS OUT IN..` (docs/CLI.md): parts of the table of a file, which are of one partition,
/// become one part at a free target. Its rows are those of all inputs in key order, rows of equal key by the
/// earlier input and then in the order that they had.
pub fn merge<R: Threads + Sync, S: Source, K: Sink, F: Shelf, G: Gate + Sync>(
    rt: &R,
    alloc: Global,
    path: &str,
    target: &str,
    inputs: &[String],
    workers: Workers,
    _input: &mut S,
    _output: &mut K,
    shelf: &mut F,
    gate: &G,
) -> Status
    requires path { IsTrue (is_path path.now) }
    requires target { IsTrue (is_path target.now) }
    requires inputs { All (λ part. IsTrue (is_path (string_bytes part))) inputs.now }
    requires some { inputs.now ≢ [] }
    ensures { PublishesFolderOf target.now (merge_steps path.now target.now (map string_bytes inputs.now))
        (world (S.left _input.old) (K.written _output.old) (files_of (F.state shelf.old))
        (S.faults _input.old) (K.faults _output.old) (F.faults shelf.old))
        (world (S.left _input.new) (K.written _output.new) (files_of (F.state shelf.new))
        (S.faults _input.new) (K.faults _output.new) (F.faults shelf.new)) result }
{
    match merged_folder(rt, alloc, path, target, inputs, workers, gate, shelf) {
        Ok(folder) => finished(store_folder(shelf, target, folder.as_slice())),
        Err(status) => status,
    }
}
