//! What a run does of the command that its words are.
ghost use Rattle.std.specs.Prelude.{Some, map};
ghost use Rattle.std.specs.String.{string_bytes};
ghost use Rattle.mt_shelf.specs.State.{files_of};
ghost use Rattle.mt_command.specs.Plans.{world};
ghost use Rattle.mt_run.specs.Commands.{Runs};
ghost use Rattle.mt_run.specs.Parsed.{IsWithin, command_for};
ghost use Rattle.mt_run.specs.Words.{command_of};

use crate::parsed::{Parsed, command_of};
use mt_command::Status;
use mt_merging::merge;
use mt_reading::{check, rows};
use mt_select::select;
use mt_shelf::{Gate, Shelf, Sink, Source};
use mt_show::show;
use mt_trial::trial;
use mt_writing::write;
use std::alloc::Global;
use std::thread::Threads;

/// Does a command.
fn perform_command<R: Threads + Sync, S: Source, K: Sink, F: Shelf, G: Gate + Sync>(
    rt: &R,
    alloc: Global,
    command: Parsed<'_>,
    input: &mut S,
    output: &mut K,
    shelf: &mut F,
    gate: &G,
) -> Status
    requires { IsWithin command }
    ensures { Runs (Some (command_for command.entry))
        (world (S.left input.old) (K.written output.old) (files_of (F.state shelf.old))
        (S.faults input.old) (K.faults output.old) (F.faults shelf.old))
        (world (S.left input.new) (K.written output.new) (files_of (F.state shelf.new))
        (S.faults input.new) (K.faults output.new) (F.faults shelf.new)) result }
{
    match command {
        Parsed::Write {
            table,
            part,
            workers,
        } => { write(rt, alloc, table, part, workers, input, output, shelf, gate) }
        Parsed::Check { table, part } => check(alloc, table, part, input, output, shelf),
        Parsed::Rows { table, part } => rows(alloc, table, part, input, output, shelf),
        Parsed::Show { table, part } => show(alloc, table, part, input, output, shelf),
        Parsed::Select { table, part, query } => {
            select(alloc, table, part, query, input, output, shelf)
        }
        Parsed::Merge {
            table,
            target,
            inputs,
            workers,
        } => {
            merge(
                rt, alloc, table, target, inputs, workers, input, output, shelf, gate,
            )
        }
        Parsed::Trial {
            number,
            rows,
            workers,
        } => { trial(rt, alloc, number, rows, workers, input, output, shelf, gate) }
    }
}

/// Does what the words say, but for the notes.
pub(crate) fn perform<R: Threads + Sync, S: Source, K: Sink, F: Shelf, G: Gate + Sync>(
    rt: &R,
    alloc: Global,
    words: &[String],
    input: &mut S,
    output: &mut K,
    shelf: &mut F,
    gate: &G,
) -> Status
    ensures { Runs (command_of (map string_bytes words.now))
        (world (S.left input.old) (K.written output.old) (files_of (F.state shelf.old))
        (S.faults input.old) (K.faults output.old) (F.faults shelf.old))
        (world (S.left input.new) (K.written output.new) (files_of (F.state shelf.new))
        (S.faults input.new) (K.faults output.new) (F.faults shelf.new)) result }
{
    match command_of(words) {
        Some(command) => perform_command(rt, alloc, command, input, output, shelf, gate),
        None => Status::BadWords,
    }
}
