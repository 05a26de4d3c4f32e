//! Whether the lines of the input are of one partition.

ghost use Rattle.std.specs.Prelude.{◌≡◌, All};
ghost use Rattle.mt_defs.specs.Rows.{RowFits};
ghost use Rattle.mt_meta.specs.PartitionKeys.{ArePartitionKeys};
ghost use Rattle.mt_writing.specs.Partitions.{other_line, lines_partition};
ghost use Rattle.mt_command.specs.Status.{GivesOutcome};
ghost use Rattle.mt_command.specs.Steps.{StepCausedBy, of_nothing};

use mt_command::Status;
use mt_meta::same_partition;
use mt_table::Table;
use mt_types::Row;

/// Refuses the first line whose partition value isn't line 1's.
pub(crate) fn lines_partition(table: &Table, rows: &[Row]) -> Result<(), Status>
    requires key { ArePartitionKeys table.now.columns table.now.partition }
    requires fit { All (RowFits table.now.columns) rows.now }
    ensures gives { GivesOutcome result (lines_partition table.now rows.now) }
    ensures cause { StepCausedBy result of_nothing of_nothing }
{
    let Some(first) = rows.first() else {
        return Ok(());
    };
    match other_line(table, first, rows) {
        Some(line) => Err(Status::ManyPartitions { line }),
        None => Ok(()),
    }
}

/// The first line, from 1, whose row has another partition value than a row.
fn other_line(table: &Table, first: &Row, rows: &[Row]) -> Option<u64>
    requires key { ArePartitionKeys table.now.columns table.now.partition }
    requires first { RowFits table.now.columns first.now }
    requires fit { All (RowFits table.now.columns) rows.now }
    ensures { result ≡ other_line table.now first.now 1 rows.now }
{
    for (i, row) in rows.iter().enumerate() {
        if !same_partition(table, first, row) {
            return Some(i as u64 + 1);
        }
    }
    None
}
