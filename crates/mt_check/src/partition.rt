//! The files of a partition.

ghost use Rattle.std.specs.Prelude.{◌≡◌, ◌≢◌, [], All};
ghost use Rattle.mt_defs.specs.Folder.{folder_of};
ghost use Rattle.mt_defs.specs.Rows.{RowFits};
ghost use Rattle.mt_meta.specs.PartitionKeys.{ArePartitionKeys};
ghost use Rattle.mt_check.specs.PartitionReading.{files_reading, other_partition, partition_reading};
ghost use Rattle.mt_fault.specs.Results.{Gives};

use mt_definition::{Accepted, granule_of};
use mt_fault::{FileBytes, FileError, Why, file_fault, granule_fault};
use mt_files::bytes_of;
use mt_meta::{partition_files, same_partition};
use mt_names::PARTITION_FILE;
use mt_table::Table;
use mt_types::Row;
use std::alloc::Global;

/// That the rows have one partition value, and that the partition's files are theirs.
pub(crate) fn check_partition(
    alloc: Global,
    table: &Table,
    files: &[FileBytes],
    accepted: &Accepted,
) -> Result<(), FileError>
    requires key { ArePartitionKeys table.now.columns table.now.partition }
    requires some { accepted.now.rows ≢ [] }
    requires fit { All (RowFits table.now.columns) accepted.now.rows }
    ensures { Gives result (partition_reading table.now (folder_of files.now) accepted.now) }
{
    if table.partition.is_empty() {
        return Ok(());
    }
    bytes_of(alloc, files, PARTITION_FILE)?;
    let rows = accepted.rows.as_slice();
    if let Some(row) = other_partition(table, rows) {
        let granule = granule_of(accepted.granules.as_slice(), row);
        return Err(granule_fault(alloc, PARTITION_FILE, granule, Why::Partition));
    }
    match partition_files(alloc, table, rows) {
        Ok(written) => check_files(alloc, files, written.as_slice()),
        Err(_) => Err(FileError::NoMemory),
    }
}

/// The first row of another partition than the first row's, by its index.
fn other_partition(table: &Table, rows: &[Row]) -> Option<usize>
    requires key { ArePartitionKeys table.now.columns table.now.partition }
    requires some { rows.now ≢ [] }
    requires fit { All (RowFits table.now.columns) rows.now }
    ensures { result ≡ other_partition table.now rows.now }
{
    for (index, row) in rows.iter().enumerate() {
        if !same_partition(table, row, &rows[0]) {
            return Some(index);
        }
    }
    None
}

/// That the folder has these files, byte by byte.
fn check_files(alloc: Global, files: &[FileBytes], written: &[FileBytes]) -> Result<(), FileError>
    ensures { Gives result (files_reading (folder_of files.now) written.now) }
{
    for file in written {
        let bytes = bytes_of(alloc, files, file.name.as_slice())?;
        if bytes != file.bytes.as_slice() {
            return Err(file_fault(alloc, file.name.as_slice(), Why::Value));
        }
    }
    Ok(())
}
