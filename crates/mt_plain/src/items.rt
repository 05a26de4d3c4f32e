//! Numbers in little-endian bytes, and the items of a column of them.

ghost use Rattle.std.specs.Prelude.{◌≡◌, ◌++◌, OnOk, IsTrue};
ghost use Rattle.std.specs.Int.{w32, w64, to_le_bytes};
ghost use Rattle.mt_types.specs.declared.ty.Ty.TheVariants.{UInt};
ghost use Rattle.mt_types.specs.declared.ty.Width.TheVariants.{W64};
ghost use Rattle.mt_types.specs.Fits.{fits_of};
ghost use Rattle.mt_types.specs.Items.{item_bytes};
ghost use Rattle.mt_defs.specs.Rows.{cell};
ghost use Rattle.mt_plain.specs.NumberRows.{HasNumbers, items_of_column};

use mt_types::{List, NoMemory, Row, Value};

/// Appends a number in four bytes.
pub(crate) fn append_u32(number: u32, out: &mut List<u8>) -> Result<(), NoMemory>
    ensures { OnOk result (out.new ≡ out.old ++ to_le_bytes w32 number) }
{
    out.append(&number.to_le_bytes())
}

/// Appends a number in eight bytes.
pub(crate) fn append_u64(number: u64, out: &mut List<u8>) -> Result<(), NoMemory>
    ensures { OnOk result (out.new ≡ out.old ++ to_le_bytes w64 number) }
{
    out.append(&number.to_le_bytes())
}

/// Appends the items of a column in some rows, one after another.
pub(crate) fn append_items(
    column_index: usize,
    rows: &[Row],
    out: &mut List<u8>,
) -> Result<(), NoMemory>
    requires { HasNumbers column_index rows.now }
    ensures { OnOk result (out.new ≡ out.old ++ items_of_column column_index rows.now) }
{
    for row in rows {
        append_cell(column_index, row, out)?;
    }
    Ok(())
}

/// Appends the item of a row's value in a column.
fn append_cell(column_index: usize, row: &Row, out: &mut List<u8>) -> Result<(), NoMemory>
    requires { IsTrue (fits_of (UInt W64) (cell row.now column_index)) }
    ensures { OnOk result (out.new ≡ out.old ++ item_bytes (UInt W64) (cell row.now column_index)) }
{
    let value = row.as_slice().get(column_index).unwrap_or(&Value::Null);
    append_item(value, out)
}

/// Appends the item of a value.
fn append_item(value: &Value, out: &mut List<u8>) -> Result<(), NoMemory>
    requires { IsTrue (fits_of (UInt W64) value.now) }
    ensures { OnOk result (out.new ≡ out.old ++ item_bytes (UInt W64) value.now) }
{
    match value {
        Value::Num(number) => append_u64(*number as u64, out),
        _ => unreachable!(),
    }
}
