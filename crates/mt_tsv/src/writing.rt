//! Rows as lines.

ghost use Rattle.std.specs.Prelude.{◌≡◌, ◌++◌, take, length, OnOk, OnErr};
ghost use Rattle.mt_tsv.specs.Printing.{row_text};

use crate::ascii::{LINE_END, TAB};
use crate::print::{append_field, append_separator};
use mt_table::Column;
use mt_types::{List, NoMemory, Row};
use std::alloc::Global;
use std::mem;

/// Appends the line of a row; on `NoMemory` perhaps a part of it.
fn append_row(columns: &[Column], row: &Row, out: &mut List<u8>) -> Result<(), NoMemory>
    requires { length row.now ≡ length columns.now }
    ensures ok { OnOk result (out.new ≡ out.old ++ row_text columns.now row.now) }
    ensures kept { OnErr result (take (length out.old) out.new ≡ out.old) }
{
    let values = row.as_slice();
    for (i, column) in columns.iter().enumerate() {
        append_separator(out, i, TAB)?;
        append_field(out, &column.ty, &values[i])?;
    }
    out.append(&[LINE_END])?;
    Ok(())
}

/// Keeps the first bytes of a list, so many.
fn truncate(alloc: Global, out: &mut List<u8>, len: usize)
    ensures { out.new ≡ take len out.old }
{
    let mut bytes = mem::replace(out, List::new(alloc)).into_vec();
    bytes.truncate(len);
    *out = List::of(bytes);
}

/// Appends the line of a row (docs/LANGUAGE.md, "Lines"). On `NoMemory` the list is unchanged.
pub fn write_row(
    alloc: Global,
    columns: &[Column],
    row: &Row,
    out: &mut List<u8>,
) -> Result<(), NoMemory>
    requires { length row.now ≡ length columns.now }
    ensures ok { OnOk result (out.new ≡ out.old ++ row_text columns.now row.now) }
    ensures kept { OnErr result (out.new ≡ out.old) }
{
    let len = out.len();
    let outcome = append_row(columns, row, out);
    if outcome.is_err() {
        truncate(alloc, out, len);
    }
    outcome
}
