//! The writer's folder.

ghost use Rattle.std.specs.Prelude.{◌≡◌, ◌≢◌, [], ◌++◌, All, IsSorted, IfOk, OnOk};
ghost use Rattle.mt_defs.specs.Partition.{HaveOnePartition};
ghost use Rattle.mt_defs.specs.Rows.{RowFits, key_cmp};
ghost use Rattle.mt_defs.specs.WrittenPartition.{partition_files};
ghost use Rattle.mt_defs.specs.Writer.{written_folder};

use crate::definition::files_with;
use crate::projections::append_projections;
use crate::skips::append_skips;
use crate::sorting::sort_files;
use mt_fault::FileBytes;
use mt_layout::layout_of;
use mt_meta::partition_files;
use mt_shelf::Gate;
use mt_table::Table;
use mt_types::{List, NoMemory, Row};
use mt_workers::Workers;
use std::alloc::Global;
use std::thread::Threads;

/// The files of the writer's folder of these rows, in the byte order of their names (docs/FORMAT.md,
/// "The writer's folder"). The same for any number of workers, from 1 to 64, and any gate.
///
/// One thread does the work.
pub fn build<R: Threads + Sync, G: Gate + Sync>(
    _rt: &R,
    alloc: Global,
    table: &Table,
    rows: &[Row],
    _workers: Workers,
    _gate: &G,
) -> Result<List<FileBytes>, NoMemory>
    requires some_rows { rows.now ≢ [] }
    requires fit { All (RowFits table.now.columns) rows.now }
    requires ordered { IsSorted (key_cmp table.now.sort) rows.now }
    requires one_partition { HaveOnePartition table.now rows.now }
    ensures { IfOk result (λ files. files ≡ written_folder table.now rows.now) }
{
    let base = table.base(alloc)?;
    let layout = layout_of(alloc, &table.settings, base.columns.as_slice(), rows)?;
    let mut files = files_with(alloc, &base, rows, &layout)?;
    append_partition(alloc, table, rows, &mut files)?;
    append_skips(alloc, table, rows, &layout, &mut files)?;
    append_projections(alloc, table, rows, &mut files)?;
    sort_files(files)
}

/// Appends the files of the rows' partition.
fn append_partition(
    alloc: Global,
    table: &Table,
    rows: &[Row],
    files: &mut Vec<FileBytes>,
) -> Result<(), NoMemory>
    requires some { rows.now ≢ [] }
    requires fit { All (RowFits table.now.columns) rows.now }
    ensures { OnOk result (files.new.items ≡ files.old.items ++ partition_files table.now rows.now) }
{
    let mut partition = partition_files(alloc, table, rows)?.into_vec();
    files.append(&mut partition)?;
    Ok(())
}
