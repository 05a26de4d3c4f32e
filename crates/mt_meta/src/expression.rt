//! The expressions of a partition key.

ghost use Rattle.std.specs.Prelude.{◌≡◌, ◌==◌, ◌++◌, ◌↔◌, IfOk, IsTrue, OnOk, map};
ghost use Rattle.std.specs.Int.{w32, to_le_bytes};
ghost use Rattle.std.specs.List.{flat_map, list_any};
ghost use Rattle.mt_types.specs.declared.value.Value.{out-Value};
ghost use Rattle.mt_table.specs.declared.partition.PartExpr.TheVariants.{Month};
ghost use Rattle.mt_defs.specs.Lists.{distinct_by};
ghost use Rattle.mt_defs.specs.Partition.{expression_bytes, expression_column, month_at};
ghost use Rattle.mt_defs.specs.Rows.{RowFits, cell};
ghost use Rattle.mt_meta.specs.PartitionKeys.{ArePartitionKeys, IsKeyExpression, HasValue, HaveSameValue};

use crate::cell::cell;
use crate::month::month_at;
use mt_item::put_item;
use mt_table::{Column, PartExpr};
use mt_types::{List, NoMemory, Row, compare};
use std::alloc::Global;
use std::cmp::Ordering;

/// The column that an expression is over, by its place.
fn column_of(expression: PartExpr) -> u32
    ensures { result ≡ expression_column expression }
{
    match expression {
        PartExpr::Plain(column_index) | PartExpr::Month(column_index) => column_index,
    }
}

/// The columns of a partition key, each where it is first used.
pub(crate) fn key_columns(alloc: Global, partition: &[PartExpr]) -> Result<List<u32>, NoMemory>
    ensures { IfOk result (λ columns.
        columns ≡ distinct_by (λ i j. i == j) (map expression_column partition.now)) }
{
    let mut columns = List::new(alloc);
    for expression in partition {
        let column_index = column_of(*expression);
        if !has(columns.as_slice(), column_index) {
            columns.push(column_index)?;
        }
    }
    Ok(columns)
}

fn has(columns: &[u32], column_index: u32) -> bool
    ensures { result ≡ list_any (λ i. i == column_index) columns.now }
{
    columns.iter().any(|i| *i == column_index)
}

/// Appends the values of a partition key in a row.
pub(crate) fn append_values(
    columns: &[Column],
    partition: &[PartExpr],
    row: &Row,
    out: &mut List<u8>,
) -> Result<(), NoMemory>
    requires key { ArePartitionKeys columns.now partition.now }
    requires fits { RowFits columns.now row.now }
    ensures { OnOk result (out.new ≡
        out.old ++ flat_map (expression_bytes columns.now row.now) partition.now) }
{
    for expression in partition {
        append_value(columns, *expression, row, out)?;
    }
    Ok(())
}

/// Appends the value of an expression in a row.
fn append_value(
    columns: &[Column],
    expression: PartExpr,
    row: &Row,
    out: &mut List<u8>,
) -> Result<(), NoMemory>
    requires expression { IsKeyExpression columns.now expression }
    requires fits { RowFits columns.now row.now }
    ensures { OnOk result (out.new ≡
        out.old ++ expression_bytes columns.now row.now expression) }
{
    match expression {
        PartExpr::Plain(i) => put_item(&columns[i as usize].ty, cell(row, i), out),
        PartExpr::Month(i) => append_month(row, i, out),
    }
}

/// Appends the month of a row's day.
fn append_month(row: &Row, column_index: u32, out: &mut List<u8>) -> Result<(), NoMemory>
    requires { HasValue row.now (Month column_index) }
    ensures { OnOk result (out.new ≡
        out.old ++ to_le_bytes w32 (month_at (out-Value (cell row.now column_index)))) }
{
    let month = month_at(cell(row, column_index));
    out.append(&month.to_le_bytes())
}

/// Whether an expression has the same value in two rows. It takes no memory.
pub(crate) fn is_same(expression: PartExpr, a: &Row, b: &Row) -> bool
    requires first { HasValue a.now expression }
    requires second { HasValue b.now expression }
    ensures { IsTrue result ↔ HaveSameValue a.now b.now expression }
{
    match expression {
        PartExpr::Plain(i) => compare(cell(a, i), cell(b, i)) == Ordering::Equal,
        PartExpr::Month(i) => month_at(cell(a, i)) == month_at(cell(b, i)),
    }
}
