//! The files of a part.

ghost use Rattle.std.specs.Prelude.{◌≡◌, [], ◌∷◌, ◌++◌, All, IfOk, OnOk};
ghost use Rattle.mt_table.specs.Form.{IsNumbersTable, uint64_column};
ghost use Rattle.mt_defs.specs.Rows.{RowFits};
ghost use Rattle.mt_defs.specs.WrittenColumns.{wide_files};
ghost use Rattle.mt_defs.specs.Writer.{written_folder};
ghost use Rattle.mt_plain.specs.NumberRows.{AreNumberRows, plain_text_files};

use crate::columns::{append_column, append_file};
use crate::granules::granules_of;
use crate::index::primary_index;
use crate::order::in_order;
use crate::texts::{columns_text, count_text};
use mt_fault::FileBytes;
use mt_table::Table;
use mt_types::{List, NoMemory, Row};
use std::alloc::Global;

/// The files of the writer's folder of these rows, in the byte order of their names (docs/FORMAT.md,
/// "The writer's folder"), for tables of two `UInt64` columns. The rows are taken as they stand, so
/// they should be in key order. Time grows with the square of the rows of a granule.
pub fn plain_folder(alloc: Global, table: &Table, rows: &[Row]) -> Result<List<FileBytes>, NoMemory>
    requires form { IsNumbersTable table.now }
    requires fit { All (RowFits table.now.columns) rows.now }
    ensures { IfOk result (λ files. files ≡ written_folder table.now rows.now) }
{
    let granules = granules_of(alloc, table, rows)?;
    let mut files = Vec::new(alloc);
    append_texts(alloc, table, rows, granules.as_slice(), &mut files)?;
    append_columns(alloc, table, rows, granules.as_slice(), &mut files)?;
    in_order(alloc, files)
}

/// Appends columns.txt, count.txt and primary.idx.
fn append_texts(
    alloc: Global,
    table: &Table,
    rows: &[Row],
    granules: &[u64],
    files: &mut Vec<FileBytes>,
) -> Result<(), NoMemory>
    requires { AreNumberRows table.now rows.now }
    ensures { OnOk result (files.new.items ≡
        files.old.items ++ plain_text_files table.now rows.now granules.now) }
{
    let (first, second) = names_of(table);
    let columns = columns_text(alloc, first, second)?;
    append_file(alloc, b"columns", b".txt", columns, files)?;
    let count = count_text(alloc, rows.len())?;
    append_file(alloc, b"count", b".txt", count, files)?;
    let index = primary_index(alloc, key_of(table), rows, granules)?;
    append_file(alloc, b"primary", b".idx", index, files)
}

/// Appends the files of both columns.
fn append_columns(
    alloc: Global,
    table: &Table,
    rows: &[Row],
    granules: &[u64],
    files: &mut Vec<FileBytes>,
) -> Result<(), NoMemory>
    requires { AreNumberRows table.now rows.now }
    ensures { OnOk result (files.new.items ≡
        files.old.items ++ wide_files table.now.columns rows.now granules.now) }
{
    let (first, second) = names_of(table);
    append_column(alloc, first, 0, rows, granules, files)?;
    append_column(alloc, second, 1, rows, granules, files)
}

/// The names of both columns.
fn names_of(table: &Table) -> (&[u8], &[u8])
    requires { IsNumbersTable table.now }
    ensures { table.now.columns ≡ uint64_column result.0.now ∷ uint64_column result.1.now ∷ [] }
{
    let columns = table.columns.as_slice();
    (columns[0].name.as_slice(), columns[1].name.as_slice())
}

/// The column that is the key.
fn key_of(table: &Table) -> usize
    requires { IsNumbersTable table.now }
    ensures { table.now.sort ≡ result ∷ [] }
{
    table.sort.as_slice()[0] as usize
}
