//! The inputs are read, each checked once.

ghost use Rattle.std.specs.Prelude.{◌≡◌, ◌≢◌, [], All, IfErr, IfOk, IfSome, IsTrue, OnOk, false, map};
ghost use Rattle.std.specs.String.{string_bytes};
ghost use Rattle.mt_shelf.specs.Paths.{is_path};
ghost use Rattle.mt_shelf.specs.State.{files_of};
ghost use Rattle.mt_command.specs.Outcomes.{ReturnsOutcome};
ghost use Rattle.mt_command.specs.Status.{is_outside_fault};
ghost use Rattle.mt_command.specs.Steps.{StepCausedBy, of_shelf};
ghost use Rattle.mt_merging.specs.Inputs.{AreInputs, all_rows};
ghost use Rattle.mt_merging.specs.Merge.{input_steps, inputs_steps};
ghost use Rattle.mt_merging.specs.Rooms.{LeaveRoom};

use crate::inputs::add_input;
use crate::room::{Room, whole_room};
use mt_command::{Status, accept_part};
use mt_definition::Accepted;
use mt_shelf::Shelf;
use mt_table::Table;
use mt_types::{List, Row};
use std::alloc::Global;

/// Reads an input after those that were read, and gives the room that all leave.
fn read_input<F: Shelf>(
    alloc: Global,
    shelf: &mut F,
    table: &Table,
    part: &str,
    read: &mut List<List<Row>>,
    room: Room,
) -> Result<Room, Status>
    requires part { IsTrue (is_path part.now) }
    requires inputs { AreInputs table.now read.old }
    requires room { LeaveRoom table.now (all_rows read.old) room }
    ensures ok { IfSome (files_of (F.state shelf.old))
        (λ files. OnOk result (input_steps table.now files read.old part.now (Ok read.new))) }
    ensures err { IfSome (files_of (F.state shelf.old))
        (λ files. IfErr result (λ status. is_outside_fault status ≡ false → input_steps table.now files read.old part.now (Err status))) }
    ensures inputs { OnOk result (AreInputs table.now read.new) }
    ensures room { IfOk result (LeaveRoom table.now (all_rows read.new)) }
    ensures some { OnOk result (read.new ≢ []) }
    ensures files { files_of (F.state shelf.new) ≡ files_of (F.state shelf.old) }
    ensures cause { StepCausedBy result (of_shelf (F.faults shelf.old)) (of_shelf (F.faults shelf.new)) }
{
    let Accepted { rows, .. } = match accept_part(alloc, shelf, table, part) {
        Ok(accepted) => accepted,
        Err(status) => return Err(status),
    };
    match add_input(table, read, room, rows) {
        Ok(left) => Ok(left),
        Err(status) => Err(status),
    }
}

/// The rows of each input, in order.
pub(crate) fn read_inputs<F: Shelf>(
    alloc: Global,
    shelf: &mut F,
    table: &Table,
    parts: &[String],
) -> Result<List<List<Row>>, Status>
    requires parts { All (λ part. IsTrue (is_path (string_bytes part))) parts.now }
    requires some { parts.now ≢ [] }
    ensures gives { IfSome (files_of (F.state shelf.old))
        (λ files. ReturnsOutcome result (inputs_steps table.now files [] (map string_bytes parts.now))) }
    ensures inputs { IfOk result (AreInputs table.now) }
    ensures some { IfOk result (λ read. read ≢ []) }
    ensures files { files_of (F.state shelf.new) ≡ files_of (F.state shelf.old) }
    ensures cause { StepCausedBy result (of_shelf (F.faults shelf.old)) (of_shelf (F.faults shelf.new)) }
{
    let mut read = List::new(alloc);
    let mut room = whole_room(table);
    for part in parts {
        match read_input(alloc, shelf, table, part.as_str(), &mut read, room) {
            Ok(left) => room = left,
            Err(status) => return Err(status),
        }
    }
    Ok(read)
}
