//! The inputs that were read: of one partition, and within the limits together.

ghost use Rattle.std.specs.Prelude.{◌≡◌, ◌≢◌, [], ◌∷◌, ◌++◌, All, IfErr, IfOk, OnOk, false};
ghost use Rattle.mt_defs.specs.Partition.{HaveOnePartition};
ghost use Rattle.mt_defs.specs.Rows.{RowFits};
ghost use Rattle.mt_command.specs.Status.{GivesOutcome, is_outside_fault};
ghost use Rattle.mt_command.specs.Steps.{StepCausedBy, of_nothing};
ghost use Rattle.mt_merging.specs.Inputs.{AreInputs, all_rows, share_partition, inputs_partition, with_input};
ghost use Rattle.mt_merging.specs.Rooms.{LeaveRoom};

use crate::room::{Room, room_after};
use mt_command::Status;
use mt_meta::same_partition;
use mt_table::Table;
use mt_types::{List, Row};

/// Refuses rows of another partition than the first input's.
#[tactic(auto, using(mt_build::proofs::SkipLemmas::partition_keys))]
fn inputs_partition(table: &Table, read: &[List<Row>], rows: &[Row]) -> Result<(), Status>
    requires read { All (λ input. All (RowFits table.now.columns) input) read.now }
    requires fit { All (RowFits table.now.columns) rows.now }
    ensures gives { GivesOutcome result (inputs_partition table.now read.now rows.now) }
    ensures cause { StepCausedBy result of_nothing of_nothing }
{
    let Some(first) = read.first() else {
        return Ok(());
    };
    if share_partition(table, first.as_slice(), rows) {
        return Ok(());
    }
    Err(Status::MixedPartitions {
        input: read.len() as u64 + 1,
    })
}

/// Whether two lists of rows begin with the same partition value.
fn share_partition(table: &Table, one: &[Row], other: &[Row]) -> bool
    requires one { All (RowFits table.now.columns) one.now }
    requires other { All (RowFits table.now.columns) other.now }
    ensures { result ≡ share_partition table.now one.now other.now }
{
    match (one.first(), other.first()) {
        (Some(a), Some(b)) => same_partition(table, a, b),
        _ => true,
    }
}

/// Adds the rows of an input to those of the inputs before it, and gives the room that all leave.
/// On `NoMemory` the input is dropped.
pub(crate) fn add_input(
    table: &Table,
    read: &mut List<List<Row>>,
    room: Room,
    rows: List<Row>,
) -> Result<Room, Status>
    requires inputs { AreInputs table.now read.old }
    requires room { LeaveRoom table.now (all_rows read.old) room }
    requires some { rows ≢ [] }
    requires fit { All (RowFits table.now.columns) rows }
    requires one_partition { HaveOnePartition table.now rows }
    ensures ok { OnOk result (with_input table.now read.old rows ≡ Ok read.new) }
    ensures err { IfErr result (λ status. is_outside_fault status ≡ false → with_input table.now read.old rows ≡ Err status) }
    ensures inputs { OnOk result (AreInputs table.now read.new) }
    ensures room { IfOk result (LeaveRoom table.now (all_rows read.new)) }
    ensures cause { StepCausedBy result of_nothing of_nothing }
{
    inputs_partition(table, read.as_slice(), rows.as_slice())?;
    let left = match room_after(table, room, rows.as_slice()) {
        Ok(left) => left,
        Err(status) => return Err(status),
    };
    match read.push(rows) {
        Ok(()) => Ok(left),
        Err(_) => Err(Status::NoMemory),
    }
}
