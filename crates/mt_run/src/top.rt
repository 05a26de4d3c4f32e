//! The top call: the words' command, and then the notes.
ghost use Rattle.std.specs.Prelude.{map};
ghost use Rattle.std.specs.String.{string_bytes};
ghost use Rattle.mt_shelf.specs.State.{files_of};
ghost use Rattle.mt_command.specs.Plans.{world};
ghost use Rattle.mt_run.specs.Commands.{Runs};
ghost use Rattle.mt_note.specs.Notes.{Noted};
ghost use Rattle.mt_run.specs.Words.{command_of};

use crate::perform::perform;
use mt_command::Status;
use mt_note::report;
use mt_shelf::{Gate, Shelf, Sink, Source};
use std::alloc::Global;
use std::thread::Threads;

/// Does all that the program does: the words' command, and then the note of a status that isn't `Done`.
///
/// The words are those of docs/CLI.md, without the program's name. Where an object doesn't show its
/// content, what is said of that content says nothing.
pub fn run<R: Threads + Sync, S: Source, K: Sink, N: Sink, F: Shelf, G: Gate + Sync>(
    rt: &R,
    alloc: Global,
    words: &[String],
    input: &mut S,
    output: &mut K,
    notes: &mut N,
    shelf: &mut F,
    gate: &G,
) -> Status
    ensures meets { Runs (command_of (map string_bytes words.now))
        (world (S.left input.old) (K.written output.old) (files_of (F.state shelf.old))
        (S.faults input.old) (K.faults output.old) (F.faults shelf.old))
        (world (S.left input.new) (K.written output.new) (files_of (F.state shelf.new))
        (S.faults input.new) (K.faults output.new) (F.faults shelf.new)) result }
    ensures noted { Noted result (N.written notes.old) (N.written notes.new)
        (N.faults notes.old) (N.faults notes.new) }
{
    let status = perform(rt, alloc, words, input, output, shelf, gate);
    report(alloc, notes, status)
}
