//! The command `trial`.

ghost use Rattle.std.specs.Prelude.{◌≤◌, Ok};
ghost use Rattle.mt_shelf.specs.State.{files_of};
ghost use Rattle.mt_command.specs.Outcomes.{ReturnsOutcome, gives};
ghost use Rattle.mt_command.specs.Plans.{world};
ghost use Rattle.mt_command.specs.Steps.{StepCausedBy, of_nothing};
ghost use Rattle.mt_trial.specs.Trial.{PrintsTrial, trial_text};
ghost use Rattle.mt_trial.specs.declared.rows.TheConstants.{MAX_TRIAL_ROWS};

use crate::halves::{half_folder, two_parts};
use crate::law::trials_have_one_outcome;
use crate::merged::merge_answers;
use crate::table::trial_table;
use mt_command::{Status, finished, print};
use mt_shelf::{Gate, Shelf, Sink, Source};
use mt_types::List;
use mt_workers::Workers;
use std::alloc::Global;
use std::thread::Threads;

/// What a trial prints. All is done in memory, and nothing but memory can fail.
fn trial_text<R: Threads + Sync, G: Gate + Sync>(
    rt: &R,
    alloc: Global,
    number: u64,
    rows: u64,
    workers: Workers,
    gate: &G,
) -> Result<List<u8>, Status>
    requires some { 2 ≤ rows }
    requires most { rows ≤ MAX_TRIAL_ROWS }
    ensures gives { ReturnsOutcome result (gives (Ok (trial_text number rows))) }
    ensures cause { StepCausedBy result of_nothing of_nothing }
{
    trials_have_one_outcome();
    let table = match trial_table(alloc) {
        Ok(table) => table,
        Err(status) => return Err(status),
    };
    let even = match half_folder(rt, alloc, &table, number, rows, 0, workers, gate) {
        Ok(folder) => folder,
        Err(status) => return Err(status),
    };
    let odd = match half_folder(rt, alloc, &table, number, rows, 1, workers, gate) {
        Ok(folder) => folder,
        Err(status) => return Err(status),
    };
    let Ok(mut shelf) = two_parts(alloc, even.as_slice(), odd.as_slice()) else {
        return Err(Status::NoMemory);
    };
    merge_answers(rt, alloc, &mut shelf, &table, workers, gate)
}

/// The command `trial NUMBER ROWS WORKERS` (docs/CLI.md): rows that the number determines are written as two parts,
/// which are merged; the merge is checked and queried, and the answers are printed: always the text of these numbers,
/// for any number of workers. No file of the shelf is read or written.
pub fn trial<R: Threads + Sync, S: Source, K: Sink, F: Shelf, G: Gate + Sync>(
    rt: &R,
    alloc: Global,
    number: u64,
    rows: u64,
    workers: Workers,
    _input: &mut S,
    output: &mut K,
    _shelf: &mut F,
    gate: &G,
) -> Status
    requires some { 2 ≤ rows }
    requires most { rows ≤ MAX_TRIAL_ROWS }
    ensures { PrintsTrial number rows
        (world (S.left _input.old) (K.written output.old) (files_of (F.state _shelf.old))
        (S.faults _input.old) (K.faults output.old) (F.faults _shelf.old))
        (world (S.left _input.new) (K.written output.new) (files_of (F.state _shelf.new))
        (S.faults _input.new) (K.faults output.new) (F.faults _shelf.new)) result }
{
    match trial_text(rt, alloc, number, rows, workers, gate) {
        Ok(text) => finished(print(output, text.as_slice())),
        Err(status) => status,
    }
}
