//! The files of a partition: partition.dat, and a minmax file for each column of the partition key.

ghost use Rattle.std.specs.Prelude.{◌≡◌, ◌≢◌, ◌<◌, [], All, IfOk, IsTrue, length};
ghost use Rattle.mt_defs.specs.Metadata.{column_at};
ghost use Rattle.mt_defs.specs.Partition.{partition_bytes, partition_name};
ghost use Rattle.mt_defs.specs.Rows.{RowFits, column_values};
ghost use Rattle.mt_defs.specs.WrittenColumns.{file};
ghost use Rattle.mt_defs.specs.WrittenPartition.{minmax_bytes};
ghost use Rattle.mt_defs.specs.WrittenPartition as written;
ghost use Rattle.mt_meta.specs.Keys.{is_scalar};
ghost use Rattle.mt_meta.specs.PartitionKeys.{ArePartitionKeys, HasValueOf};

use crate::expression::{append_values, key_columns};
use crate::minmax::minmax;
use mt_fault::FileBytes;
use mt_item::put_item;
use mt_names::{PARTITION_FILE, minmax_name};
use mt_table::{Column, Table};
use mt_types::{List, NoMemory, Row, Ty};
use std::alloc::Global;

/// The files of the partition of some rows (docs/FORMAT.md, "Partition"; ClickHouse:
/// `MergeTreePartition`, `IMergeTreeDataPart::MinMaxIndex`): partition.dat with the values of the first
/// row, and then for each column of the partition key, where it is first used, the least and the
/// greatest value. There is none without a partition key.
pub fn partition_files(
    alloc: Global,
    table: &Table,
    rows: &[Row],
) -> Result<List<FileBytes>, NoMemory>
    requires key { ArePartitionKeys table.now.columns table.now.partition }
    requires some { rows.now ≢ [] }
    requires fit { All (RowFits table.now.columns) rows.now }
    ensures { IfOk result (λ files. files ≡ written.partition_files table.now rows.now) }
{
    let mut files = List::new(alloc);
    if table.partition.is_empty() {
        return Ok(files);
    }
    files.push(values_file(alloc, table, &rows[0])?)?;
    let columns = key_columns(alloc, table.partition.as_slice())?;
    for column_index in columns.as_slice() {
        files.push(minmax_file(alloc, table, *column_index, rows)?)?;
    }
    Ok(files)
}

/// partition.dat of a row's partition.
fn values_file(alloc: Global, table: &Table, row: &Row) -> Result<FileBytes, NoMemory>
    requires key { ArePartitionKeys table.now.columns table.now.partition }
    requires fits { RowFits table.now.columns row.now }
    ensures { IfOk result (λ written. written ≡ file partition_name (partition_bytes table.now row.now)) }
{
    let mut bytes = List::new(alloc);
    append_values(
        table.columns.as_slice(),
        table.partition.as_slice(),
        row,
        &mut bytes,
    )?;
    Ok(FileBytes {
        name: List::of_bytes(alloc, PARTITION_FILE)?,
        bytes: bytes,
    })
}

/// The minmax file of a column.
fn minmax_file(
    alloc: Global,
    table: &Table,
    column_index: u32,
    rows: &[Row],
) -> Result<FileBytes, NoMemory>
    requires known { column_index < length table.now.columns }
    requires scalar { IsTrue (is_scalar (column_at table.now.columns column_index).ty) }
    requires some { rows.now ≢ [] }
    requires fit { All (RowFits table.now.columns) rows.now }
    ensures { IfOk result (λ file. file ≡ written.minmax_file table.now rows.now column_index) }
{
    let column = &table.columns.as_slice()[column_index as usize];
    Ok(FileBytes {
        name: minmax_name(alloc, table, column_index)?,
        bytes: minmax_bytes(alloc, &column.ty, column_index, rows)?,
    })
}

/// The least and then the greatest value of a column of this type.
fn minmax_bytes(
    alloc: Global,
    ty: &Ty,
    column_index: u32,
    rows: &[Row],
) -> Result<List<u8>, NoMemory>
    requires scalar { IsTrue (is_scalar ty.now) }
    requires some { rows.now ≢ [] }
    requires fit { All (HasValueOf ty.now column_index) rows.now }
    ensures { IfOk result (λ bytes. bytes ≡ minmax_bytes ty.now (column_values column_index rows.now)) }
{
    let (least, greatest) = minmax(rows, column_index);
    let mut bytes = List::new(alloc);
    put_item(ty, least, &mut bytes)?;
    put_item(ty, greatest, &mut bytes)?;
    Ok(bytes)
}
