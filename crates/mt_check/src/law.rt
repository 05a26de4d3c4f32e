//! Laws of the checks, each the contract of a function that does nothing.

ghost use Rattle.std.specs.Prelude.{◌≡◌, ◌≢◌, ◌↔◌, [], All, None, Ok};
ghost use Rattle.mt_table.specs.declared.definition.Table.{Table};
ghost use Rattle.mt_defs.specs.Folder.{Folder};
ghost use Rattle.mt_defs.specs.Partition.{partition_name, HasPartition, HaveOnePartition};
ghost use Rattle.mt_defs.specs.Rows.{RowFits};
ghost use Rattle.mt_definition.specs.declared.accepted.Accepted.{Accepted};
ghost use Rattle.mt_check.specs.PartitionReading.{partition_reading};

use mt_meta::written_partitions_are_compared;

/// The partition's checks pass exactly where the rows are of one partition and the folder has its files; without
/// a partition key a partition.dat is a matter of names.
pub fn partitions_are_checked()
    ensures { (table : Table) (folder : Folder) (accepted : Accepted) → accepted.rows ≢ []
        → All (RowFits table.columns) accepted.rows
        → (table.partition ≡ [] → folder partition_name ≡ None)
        → (partition_reading table folder accepted ≡ Ok tt)
        ↔ ((HaveOnePartition table accepted.rows) × HasPartition table accepted.rows folder) }
{
    written_partitions_are_compared();
}
