//! The command `write`: rows from the input become a part.
ghost use Rattle.std.specs.Prelude.{◌≡◌, map, All, IfOk, IfSome, OnOk, IsTrue};
ghost use Rattle.std.specs.Option.{option_map};
ghost use Rattle.std.specs.Io.KnownBytes.{IsAtEnd};
ghost use Rattle.mt_shelf.specs.Paths.{is_path};
ghost use Rattle.mt_shelf.specs.Files.{gained_files};
ghost use Rattle.mt_shelf.specs.Held.{pair_of, HasName};
ghost use Rattle.mt_shelf.specs.State.{files_of};
ghost use Rattle.mt_command.specs.Status.{GivesOutcome};
ghost use Rattle.mt_command.specs.Plans.{Meets, CausedBy, world, answer_of};
ghost use Rattle.mt_command.specs.Steps.{StepCausedBy, Stored, of_shelf, of_source};
ghost use Rattle.mt_writing.specs.Write.{table_for, folder_for, write_plan};

use crate::folder::folder_of_text;
use crate::input::read_input;
use mt_command::{Status, finished, free_target, read_table, store_folder};
use mt_fault::FileBytes;
use mt_shelf::{Gate, Shelf, Sink, Source};
use mt_table::Table;
use mt_types::List;
use mt_workers::Workers;
use std::alloc::Global;
use std::thread::Threads;

/// Reads the table of a file, and then tries the target.
fn table_for<F: Shelf>(
    alloc: Global,
    shelf: &mut F,
    path: &str,
    part: &str,
) -> Result<Table, Status>
    requires path { IsTrue (is_path path.now) }
    requires part { IsTrue (is_path part.now) }
    ensures gives { IfSome (files_of (F.state shelf.old))
        (λ files. GivesOutcome result (table_for path.now part.now files)) }
    ensures files { files_of (F.state shelf.new) ≡ files_of (F.state shelf.old) }
    ensures cause { StepCausedBy result (of_shelf (F.faults shelf.old)) (of_shelf (F.faults shelf.new)) }
{
    let table = read_table(alloc, shelf, path)?;
    match free_target(shelf, part) {
        Ok(()) => Ok(table),
        Err(status) => Err(status),
    }
}

/// Reads the input to its end, and makes the folder of its rows.
fn folder_for<R: Threads + Sync, S: Source, G: Gate + Sync>(
    rt: &R,
    alloc: Global,
    input: &mut S,
    table: &Table,
    workers: Workers,
    gate: &G,
) -> Result<List<FileBytes>, Status>
    ensures gives { IfSome (S.left input.old) (λ input. GivesOutcome result (folder_for table.now input)) }
    ensures names { IfOk result (λ folder. All HasName folder) }
    ensures ended { OnOk result (IsAtEnd (S.left input.new)) }
    ensures cause { StepCausedBy result (of_source (S.faults input.old)) (of_source (S.faults input.new)) }
{
    let text = read_input(alloc, input)?;
    folder_of_text(rt, alloc, table, text.as_slice(), workers, gate)
}

/// The steps of the command, up to the first that ends it.
fn write_steps<R: Threads + Sync, S: Source, K: Sink, F: Shelf, G: Gate + Sync>(
    rt: &R,
    alloc: Global,
    path: &str,
    part: &str,
    workers: Workers,
    input: &mut S,
    _output: &mut K,
    shelf: &mut F,
    gate: &G,
) -> Result<(), Status>
    requires path { IsTrue (is_path path.now) }
    requires part { IsTrue (is_path part.now) }
    ensures meets { Meets (write_plan path.now part.now)
        (world (S.left input.old) (K.written _output.old) (files_of (F.state shelf.old))
        (S.faults input.old) (K.faults _output.old) (F.faults shelf.old))
        (world (S.left input.new) (K.written _output.new) (files_of (F.state shelf.new))
        (S.faults input.new) (K.faults _output.new) (F.faults shelf.new)) (answer_of result) }
    ensures cause { CausedBy (write_plan path.now part.now)
        (world (S.left input.old) (K.written _output.old) (files_of (F.state shelf.old))
        (S.faults input.old) (K.faults _output.old) (F.faults shelf.old))
        (world (S.left input.new) (K.written _output.new) (files_of (F.state shelf.new))
        (S.faults input.new) (K.faults _output.new) (F.faults shelf.new)) (answer_of result) }
{
    let table = table_for(alloc, shelf, path, part)?;
    let folder = match folder_for(rt, alloc, input, &table, workers, gate) {
        Ok(folder) => folder,
        Err(status) => return Err(status),
    };
    store_folder(shelf, part, folder.as_slice())
}

/// The command `write`: publishes the folder of the input's rows at a free target.
pub fn write<R: Threads + Sync, S: Source, K: Sink, F: Shelf, G: Gate + Sync>(
    rt: &R,
    alloc: Global,
    path: &str,
    part: &str,
    workers: Workers,
    input: &mut S,
    output: &mut K,
    shelf: &mut F,
    gate: &G,
) -> Status
    requires path { IsTrue (is_path path.now) }
    requires part { IsTrue (is_path part.now) }
    ensures meets { Meets (write_plan path.now part.now)
        (world (S.left input.old) (K.written output.old) (files_of (F.state shelf.old))
        (S.faults input.old) (K.faults output.old) (F.faults shelf.old))
        (world (S.left input.new) (K.written output.new) (files_of (F.state shelf.new))
        (S.faults input.new) (K.faults output.new) (F.faults shelf.new)) result }
    ensures cause { CausedBy (write_plan path.now part.now)
        (world (S.left input.old) (K.written output.old) (files_of (F.state shelf.old))
        (S.faults input.old) (K.faults output.old) (F.faults shelf.old))
        (world (S.left input.new) (K.written output.new) (files_of (F.state shelf.new))
        (S.faults input.new) (K.faults output.new) (F.faults shelf.new)) result }
{
    finished(write_steps(rt, alloc, path, part, workers, input, output, shelf, gate))
}
