//! columns.txt: the columns of a folder, with their types.

ghost use Rattle.std.specs.Prelude.{◌≡◌, ◌++◌, ◌≤◌, length, map, IfOk, OnOk};
ghost use Rattle.mt_table.specs.declared.limits.TheConstants.{MAX_COLUMNS};
ghost use Rattle.mt_defs.specs.Metadata.{column_line, columns_name};
ghost use Rattle.mt_defs.specs.Metadata as defined;
ghost use Rattle.mt_meta.specs.ColumnsReading.{columns_reading};
ghost use Rattle.mt_fault.specs.Results.{Gives};
ghost use Rattle.mt_fault.specs.Faults.{blame, file_fault};
ghost use Rattle.mt_meta.specs.Results.{GivesListed};

use crate::listing::listing;
use crate::order::{may_list, order_of};
use itoa::Buffer;
use mt_fault::{FileError, Why, file_fault};
use mt_names::COLUMNS_FILE;
use mt_table::Column;
use mt_types::{List, NoMemory};
use std::alloc::Global;

/// The bytes of columns.txt (docs/FORMAT.md, "Metadata"; ClickHouse: `NamesAndTypesList::writeText`).
pub fn columns_text(alloc: Global, columns: &[Column]) -> Result<List<u8>, NoMemory>
    ensures { IfOk result (λ text. text ≡ defined.columns_text columns.now) }
{
    let mut text = List::of_bytes(alloc, b"columns format version: 1\n")?;
    text.append(Buffer::new().format(columns.len()).as_bytes())?;
    text.append(b" columns:\n")?;
    for column in columns {
        append_line(alloc, column, &mut text)?;
    }
    Ok(text)
}

fn append_line(alloc: Global, column: &Column, text: &mut List<u8>) -> Result<(), NoMemory>
    ensures { OnOk result (text.new ≡ text.old ++ column_line column.now) }
{
    text.append(b"`")?;
    text.append(column.name.as_slice())?;
    text.append(b"` ")?;
    text.append(column.ty.write_name(alloc)?.as_slice())?;
    text.append(b"\n")
}

/// The columns that a columns.txt lists, in its order, by their places in the definition; `must` are those
/// that it must list. `Syntax` is a text of another form, `Columns` one that lists another column or one
/// twice, or that lacks one of `must`.
pub fn read_columns(
    alloc: Global,
    columns: &[Column],
    must: &[u32],
    text: &[u8],
) -> Result<List<u32>, FileError>
    requires { length columns.now ≤ MAX_COLUMNS }
    ensures { Gives result (blame (file_fault columns_name) (columns_reading columns.now must.now text.now)) }
{
    let Some((lines, count)) = listing(text) else {
        return Err(file_fault(alloc, COLUMNS_FILE, Why::Syntax));
    };
    if count > columns.len() {
        return Err(file_fault(alloc, COLUMNS_FILE, Why::Columns));
    }
    match listed_order(alloc, columns, must, lines) {
        Ok(Some(order)) => Ok(order),
        Ok(None) => Err(file_fault(alloc, COLUMNS_FILE, Why::Columns)),
        Err(_) => Err(FileError::NoMemory),
    }
}

/// Which columns the column lines of a text are, if a folder may list these.
fn listed_order(
    alloc: Global,
    columns: &[Column],
    must: &[u32],
    text: &[u8],
) -> Result<Option<List<u32>>, NoMemory>
    requires { length columns.now ≤ MAX_COLUMNS }
    ensures { IfOk result (λ found. GivesListed columns.now must.now text.now found) }
{
    let lines = column_lines(alloc, columns)?;
    let Some(order) = order_of(alloc, lines.as_slice(), text)? else {
        return Ok(None);
    };
    if may_list(columns, must, order.as_slice()) {
        Ok(Some(order))
    } else {
        Ok(None)
    }
}

/// The line of each column, its end included.
fn column_lines(alloc: Global, columns: &[Column]) -> Result<List<List<u8>>, NoMemory>
    ensures { IfOk result (λ lines. lines ≡ map column_line columns.now) }
{
    let mut lines = List::with_capacity(alloc, columns.len())?;
    for column in columns {
        let mut line = List::new(alloc);
        append_line(alloc, column, &mut line)?;
        lines.push(line)?;
    }
    Ok(lines)
}
