//! Answers without groups: references to rows are sorted, and only rows that are printed are made.

ghost use Rattle.std.specs.Prelude.{◌≡◌, ◌++◌, false, filter, length, map, IfOk, OnOk};
ghost use Rattle.std.specs.Borrow.{Bor};
ghost use Rattle.std.specs.List.{flat_map};
ghost use Rattle.mt_defs.specs.Rows.{cell};
ghost use Rattle.mt_defs.specs.Rows as defined;
ghost use Rattle.mt_defs.specs.Sorting.{sorted_by};
ghost use Rattle.mt_sort.specs.References.{rows_in};
ghost use Rattle.mt_tsv.specs.Printing.{row_text};
ghost use Rattle.mt_fold.specs.Answer as answer;
ghost use Rattle.mt_exec.specs.Plain.{items_cmp};

use crate::compare::compare_rows;
use mt_fold::{item_columns, keeps};
use mt_look::Rows;
use mt_query::{Cond, Item, Query};
use mt_table::{Column, Table};
use mt_tsv::write_row;
use mt_types::{List, NoMemory, Row, Value};
use std::alloc::Global;

/// The text of the answer of a query without groups.
pub fn plain_text(
    alloc: Global,
    table: &Table,
    query: &Query,
    rows: &[Row],
) -> Result<List<u8>, NoMemory>
    requires plain { answer.is_grouped query.now ≡ false }
    ensures { IfOk result (λ text. text ≡ answer.answer_text table.now query.now rows.now) }
{
    let items = query.items.as_slice();
    let kept = kept_rows(alloc, &query.cond, rows)?;
    let first = limit_to(put_in_order(items, kept)?, query.limit);
    let columns = item_columns(alloc, table, items)?;
    text_of(alloc, columns.as_slice(), items, first.as_slice())
}

/// The rows whose condition is true, in their order.
fn kept_rows<'a>(
    alloc: Global,
    cond: &Option<Cond>,
    rows: &'a [Row],
) -> Result<Vec<&'a Row>, NoMemory>
    ensures { IfOk result (λ kept. rows_in kept.items ≡ filter (answer.keeps cond.now) rows.now) }
{
    let from = Rows { list: rows };
    let mut kept = Vec::new(alloc);
    for (index, row) in rows.iter().enumerate() {
        if keeps(cond, &from, index as u64) {
            kept.push(row)?;
        }
    }
    Ok(kept)
}

/// The rows in the order of all items.
fn put_in_order<'a>(items: &[Item], mut rows: Vec<&'a Row>) -> Result<Vec<&'a Row>, NoMemory>
    ensures { IfOk result (λ sorted. rows_in sorted.items
        ≡ sorted_by (items_cmp items.now) (rows_in rows.entry.items)) }
{
    rows.sort_by(|a, b| compare_rows(items, a, b))?;
    Ok(rows)
}

/// The first rows, so many.
fn limit_to<'a>(mut rows: Vec<&'a Row>, limit: Option<u64>) -> Vec<&'a Row>
    ensures { rows_in result.items ≡ answer.limited limit (rows_in rows.entry.items) }
{
    match limit {
        None => rows,
        Some(limit) => {
            rows.truncate(limit as usize);
            rows
        }
    }
}

/// The lines of the rows' values of the items.
fn text_of(
    alloc: Global,
    columns: &[Column],
    items: &[Item],
    rows: &[&Row],
) -> Result<List<u8>, NoMemory>
    requires { length columns.now ≡ length items.now }
    ensures { IfOk result (λ text. text ≡ flat_map (λ (row : Bor defined.Row).
        row_text columns.now (map (answer.plain_item row.now) items.now)) rows.now) }
{
    let mut text = List::new(alloc);
    for row in rows {
        append_line(alloc, columns, items, row, &mut text)?;
    }
    Ok(text)
}

/// Appends the line of a row's values of the items.
fn append_line(
    alloc: Global,
    columns: &[Column],
    items: &[Item],
    row: &Row,
    out: &mut List<u8>,
) -> Result<(), NoMemory>
    requires { length columns.now ≡ length items.now }
    ensures { OnOk result (out.new ≡ out.old
        ++ row_text columns.now (map (answer.plain_item row.now) items.now)) }
{
    let made = result_row(alloc, items, row)?;
    write_row(alloc, columns, &made, out)
}

/// A row's values of the items.
fn result_row(alloc: Global, items: &[Item], row: &Row) -> Result<Row, NoMemory>
    ensures { IfOk result (λ made. made ≡ map (answer.plain_item row.now) items.now) }
{
    let mut made = List::with_capacity(alloc, items.len())?;
    for item in items {
        match item {
            Item::Column(column) => made.push(copy_cell(alloc, row, *column)?)?,
            _ => made.push(Value::Null)?,
        }
    }
    Ok(made)
}

/// An equal value of a row's cell; NULL where the row has none.
fn copy_cell(alloc: Global, row: &Row, column: u32) -> Result<Value, NoMemory>
    ensures { IfOk result (λ value. value ≡ cell row.now column) }
{
    match row.as_slice().get(column as usize) {
        Some(value) => value.copy(alloc),
        None => Ok(Value::Null),
    }
}
