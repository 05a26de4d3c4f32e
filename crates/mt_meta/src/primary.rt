//! primary.idx: the sparse primary index.

ghost use Rattle.std.specs.Prelude.{◌≡◌, ◌≤◌, ◌++◌, sum, length, All, IfOk, IsTrue, OnOk};
ghost use Rattle.std.specs.List.{flat_map};
ghost use Rattle.mt_defs.specs.PrimaryIndex.{key_bytes, primary_index_of};
ghost use Rattle.mt_defs.specs.Rows.{RowFits, cell};
ghost use Rattle.mt_types.specs.Fits.{fits_of};
ghost use Rattle.mt_types.specs.Items.{item_bytes};
ghost use Rattle.mt_meta.specs.Keys.{AreKeys, is_scalar};

use mt_item::put_item;
use mt_table::{Column, PartDef};
use mt_types::{List, NoMemory, Row, Ty, Value};
use std::alloc::Global;

/// The room that is taken for a key's value at first: the bytes of the largest integer.
const VALUE_BYTES: usize = 8;

/// The bytes of primary.idx (docs/FORMAT.md, "Primary index"; ClickHouse:
/// `MergeTreeDataPartWriterOnDisk`), of rows that are cut into granules of so many rows each.
pub fn primary_bytes(
    alloc: Global,
    def: &PartDef,
    rows: &[Row],
    granules: &[u64],
) -> Result<List<u8>, NoMemory>
    requires keys { AreKeys def.now.columns def.now.sort }
    requires primary { def.now.primary ≤ length def.now.sort }
    requires fit { All (RowFits def.now.columns) rows.now }
    requires cut { sum granules.now ≡ length rows.now }
    ensures { IfOk result (λ bytes. bytes ≡ primary_index_of def.now rows.now granules.now) }
{
    let columns = def.columns.as_slice();
    let (keys, _) = def.sort.as_slice().split_at(def.primary as usize);
    let values = granules.len().saturating_add(1).saturating_mul(keys.len());
    let mut bytes = List::with_capacity(alloc, values.saturating_mul(VALUE_BYTES))?;
    let mut rest = rows;
    for count in granules {
        let (granule, after) = rest.split_at(*count as usize);
        let (first, _) = granule.split_at(granule.len().min(1));
        append_keys(columns, keys, first, &mut bytes)?;
        rest = after;
    }
    let (_, last) = rows.split_at(rows.len().saturating_sub(1));
    append_keys(columns, keys, last, &mut bytes)?;
    Ok(bytes)
}

/// Appends the keys of some rows.
fn append_keys(
    columns: &[Column],
    keys: &[u32],
    rows: &[Row],
    out: &mut List<u8>,
) -> Result<(), NoMemory>
    requires keys { AreKeys columns.now keys.now }
    requires fit { All (RowFits columns.now) rows.now }
    ensures { OnOk result (out.new ≡
        out.old ++ flat_map (key_bytes columns.now keys.now) rows.now) }
{
    for row in rows {
        append_key(columns, keys, row, out)?;
    }
    Ok(())
}

/// Appends a row's values of the key's columns.
fn append_key(
    columns: &[Column],
    keys: &[u32],
    row: &Row,
    out: &mut List<u8>,
) -> Result<(), NoMemory>
    requires keys { AreKeys columns.now keys.now }
    requires fits { RowFits columns.now row.now }
    ensures { OnOk result (out.new ≡ out.old ++ key_bytes columns.now keys.now row.now) }
{
    for key in keys {
        let column_index = *key as usize;
        append_cell(&columns[column_index].ty, column_index, row, out)?;
    }
    Ok(())
}

/// Appends a row's value in a column, which a row that fits has.
fn append_cell(ty: &Ty, column_index: usize, row: &Row, out: &mut List<u8>) -> Result<(), NoMemory>
    requires scalar { IsTrue (is_scalar ty.now) }
    requires fits { IsTrue (fits_of ty.now (cell row.now column_index)) }
    ensures { OnOk result (out.new ≡ out.old ++ item_bytes ty.now (cell row.now column_index)) }
{
    let value = row.as_slice().get(column_index).unwrap_or(&Value::Null);
    put_item(ty, value, out)
}
