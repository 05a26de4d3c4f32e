//! The names of the partition's files (docs/FORMAT.md, "Partition").

ghost use Rattle.std.specs.Prelude.{◌≡◌, ◌<◌, length, IfOk};
ghost use Rattle.mt_defs.specs.Partition as partition;

use crate::escape::file_name;
use mt_table::Table;
use mt_types::{List, NoMemory};
use std::alloc::Global;

/// The file of the least and the greatest value of a column, by the column's place
/// (ClickHouse: `IMergeTreeDataPart::MinMaxIndex`).
pub fn minmax_name(alloc: Global, table: &Table, place: u32) -> Result<List<u8>, NoMemory>
    requires { place < length table.now.columns }
    ensures { IfOk result (λ name. name ≡ partition.minmax_name table.now place) }
{
    let column = &table.columns.as_slice()[place as usize];
    file_name(alloc, b"minmax_", column.name.as_slice(), b".idx")
}
