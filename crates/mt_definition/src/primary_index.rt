//! primary.idx.

ghost use Rattle.std.specs.Prelude.{◌≡◌, ◌≢◌, ◌≤◌, ◌<◌, ◌++◌, [], sum, length, map, take, All, IfOk, IsTrue, OnOk};
ghost use Rattle.mt_types.specs.Fits.{fits_of};
ghost use Rattle.mt_types.specs.Items.{item_bytes};
ghost use Rattle.mt_defs.specs.Folder.{folder_of};
ghost use Rattle.mt_defs.specs.Granules.{AreGranules};
ghost use Rattle.mt_defs.specs.PrimaryIndex.{index_rows, key_bytes};
ghost use Rattle.mt_defs.specs.Rows.{RowFits, cell};
ghost use Rattle.mt_meta.specs.Keys.{AreKeys, is_scalar};
ghost use Rattle.mt_meta.specs.Definitions.{IsDefinition};
ghost use Rattle.mt_definition.specs.DefinitionReading.{index_reading};
ghost use Rattle.mt_fault.specs.Results.{Gives};
ghost use Rattle.mt_definition.specs.RowRefs.{rows_in};
ghost use Rattle.mt_definition.specs.RowsReading.{keys_reading};

use crate::accepted::Accepted;
use mt_fault::{FileBytes, FileError, Why, file_fault, granule_fault};
use mt_files::bytes_of;
use mt_item::put_item;
use mt_names::INDEX_FILE;
use mt_table::{Column, PartDef};
use mt_types::{List, NoMemory, Row, Ty, Value};
use std::alloc::Global;

/// That primary.idx is the keys of the first row of each granule, and of the last row.
pub(crate) fn check_index(
    alloc: Global,
    definition: &PartDef,
    files: &[FileBytes],
    accepted: &Accepted,
) -> Result<(), FileError>
    requires definition { IsDefinition definition.now }
    requires fit { All (RowFits definition.now.columns) accepted.now.rows }
    requires cut { AreGranules accepted.now.granules accepted.now.rows }
    ensures { Gives result (index_reading definition.now (folder_of files.now) accepted.now) }
{
    let bytes = bytes_of(alloc, files, INDEX_FILE)?;
    let (key, _) = definition
        .sort
        .as_slice()
        .split_at(definition.primary as usize);
    let Ok(rows) = index_rows(
        alloc,
        accepted.rows.as_slice(),
        accepted.granules.as_slice(),
    ) else {
        return Err(FileError::NoMemory);
    };
    check_keys(
        alloc,
        definition.columns.as_slice(),
        key,
        rows.as_slice(),
        bytes,
    )
}

/// The first row of each granule, and the last row.
fn index_rows<'a>(
    alloc: Global,
    rows: &'a [Row],
    granules: &[u64],
) -> Result<Vec<&'a Row>, NoMemory>
    requires { AreGranules granules.now rows.now }
    ensures { IfOk result (λ found. rows_in found.items ≡ index_rows rows.now granules.now) }
{
    let mut found = Vec::with_capacity(alloc, granules.len().saturating_add(1))?;
    let mut rest = rows;
    for count in granules {
        let (granule, after) = rest.split_at(*count as usize);
        found.push(&granule[0])?;
        rest = after;
    }
    if let Some(last) = rows.last() {
        found.push(last)?;
    }
    Ok(found)
}

/// That the bytes are the keys of some rows, the first of them that of granule 0.
fn check_keys(
    alloc: Global,
    columns: &[Column],
    key: &[u32],
    rows: &[&Row],
    bytes: &[u8],
) -> Result<(), FileError>
    requires keys { AreKeys columns.now key.now }
    requires fit { All (RowFits columns.now) (rows_in rows.now) }
    ensures { Gives result (keys_reading 0 (map (key_bytes columns.now key.now) (rows_in rows.now)) bytes.now) }
{
    let mut rest = bytes;
    for (granule, row) in rows.iter().enumerate() {
        let Ok(expected) = key_of(alloc, columns, key, row) else {
            return Err(FileError::NoMemory);
        };
        let Some(after) = rest.strip_prefix(expected.as_slice()) else {
            return Err(granule_fault(alloc, INDEX_FILE, granule as u64, Why::Key));
        };
        rest = after;
    }
    if rest.is_empty() {
        Ok(())
    } else {
        Err(file_fault(alloc, INDEX_FILE, Why::Over))
    }
}

/// A row's values of the key's columns, one item after another.
fn key_of(alloc: Global, columns: &[Column], key: &[u32], row: &Row) -> Result<List<u8>, NoMemory>
    requires keys { AreKeys columns.now key.now }
    requires fits { RowFits columns.now row.now }
    ensures { IfOk result (λ bytes. bytes ≡ key_bytes columns.now key.now row.now) }
{
    let mut bytes = List::new(alloc);
    for place in key {
        let column_index = *place as usize;
        append_cell(&columns[column_index].ty, column_index, row, &mut bytes)?;
    }
    Ok(bytes)
}

/// Appends a row's value in a column, which a row that fits has.
fn append_cell(ty: &Ty, column_index: usize, row: &Row, out: &mut List<u8>) -> Result<(), NoMemory>
    requires scalar { IsTrue (is_scalar ty.now) }
    requires fits { IsTrue (fits_of ty.now (cell row.now column_index)) }
    ensures { OnOk result (out.new ≡ out.old ++ item_bytes ty.now (cell row.now column_index)) }
{
    let value = row.as_slice().get(column_index).unwrap_or(&Value::Null);
    put_item(ty, value, out)
}
