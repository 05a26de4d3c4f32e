//! The note of a status.

ghost use Rattle.std.specs.Prelude.{◌≡◌};
ghost use Rattle.mt_note.specs.Notes.{Noted, IsReported};

use crate::line::line_of;
use mt_command::Status;
use mt_shelf::{CallError, Sink, write_all};
use std::alloc::Global;

/// Writes the line of a status, and gives the status of the run.
pub fn report<N: Sink>(alloc: Global, notes: &mut N, status: Status) -> Status
    ensures noted { Noted result (N.written notes.old) (N.written notes.new)
        (N.faults notes.old) (N.faults notes.new) }
    ensures same { IsReported status result }
{
    if let Status::Done = status {
        return Status::Done;
    }
    let Ok(line) = line_of(alloc, &status) else {
        return report_no_memory(notes);
    };
    match write_all(notes, line.as_slice()) {
        Ok(()) => status,
        Err(CallError::Failed) => status,
        Err(CallError::NoMemory) => Status::NoMemory,
    }
}

/// Writes the one line that needs no memory to be made.
fn report_no_memory<N: Sink>(notes: &mut N) -> Status
    ensures noted { Noted result (N.written notes.old) (N.written notes.new)
        (N.faults notes.old) (N.faults notes.new) }
    ensures same { result ≡ Status.NoMemory }
{
    match write_all(notes, b"mtpart: no memory\n") {
        Ok(()) => Status::NoMemory,
        Err(_) => Status::NoMemory,
    }
}
