//! Whether rows are of one partition.

ghost use Rattle.std.specs.Prelude.{◌≡◌, ◌↔◌, IsTrue};
ghost use Rattle.mt_defs.specs.Partition.{partition_bytes};
ghost use Rattle.mt_defs.specs.Rows.{RowFits};
ghost use Rattle.mt_meta.specs.PartitionKeys.{ArePartitionKeys};

use crate::expression::is_same;
use mt_table::Table;
use mt_types::Row;

/// Whether two rows have the same partition value, expression by expression. It takes no memory.
pub fn same_partition(table: &Table, a: &Row, b: &Row) -> bool
    requires key { ArePartitionKeys table.now.columns table.now.partition }
    requires first { RowFits table.now.columns a.now }
    requires second { RowFits table.now.columns b.now }
    ensures { IsTrue result ↔ (partition_bytes table.now a.now ≡ partition_bytes table.now b.now) }
{
    for expression in table.partition.as_slice() {
        if !is_same(*expression, a, b) {
            return false;
        }
    }
    true
}
