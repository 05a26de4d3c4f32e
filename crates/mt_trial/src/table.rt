//! The table of a trial.

ghost use Rattle.std.specs.Prelude.{◌≡◌, IfOk};
ghost use Rattle.mt_command.specs.Status.{GivesOutcome};
ghost use Rattle.mt_command.specs.Steps.{StepCausedBy, of_nothing};
ghost use Rattle.mt_command.specs.Tables.{table_of};
ghost use Rattle.mt_trial.specs.Tables.{trial_columns, trial_partition, trial_table_text};

use mt_command::Status;
use mt_table::Table;
use mt_table_text::{TableError, read_table};
use std::alloc::Global;

/// The table's text.
#[tactic(auto, unfolding(crate::specs::Tables::trial_table_text))]
fn table_text() -> &'static str
    ensures { result.now ≡ trial_table_text }
{
    "CREATE TABLE trial (d Date, k UInt32, v UInt64, s String, INDEX iv v TYPE minmax GRANULARITY 2, PROJECTION pk (SELECT k, count(), sum(v) GROUP BY k)) ENGINE = MergeTree PARTITION BY toYYYYMM(d) ORDER BY (k, v)"
}

/// Reads the table of a trial.
#[tactic(auto, using(crate::proofs::TableLemmas::columns_known, crate::proofs::TableLemmas::partition_known), unfolding(mt_command::specs::Tables::table_of))]
pub(crate) fn trial_table(alloc: Global) -> Result<Table, Status>
    ensures gives { GivesOutcome result (table_of trial_table_text) }
    ensures columns { IfOk result (λ table. table.columns ≡ trial_columns) }
    ensures partition { IfOk result (λ table. table.partition ≡ trial_partition) }
    ensures cause { StepCausedBy result of_nothing of_nothing }
{
    match read_table(alloc, table_text().as_bytes()) {
        Ok(table) => Ok(table),
        Err(TableError::Bad(why)) => Err(Status::BadTable(why)),
        Err(TableError::NoMemory) => Err(Status::NoMemory),
    }
}
