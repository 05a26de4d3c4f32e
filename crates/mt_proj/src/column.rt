//! Values of a row by their columns. A column that a row lacks counts as NULL.

ghost use Rattle.std.specs.Prelude.{◌≡◌, IfOk};
ghost use Rattle.mt_defs.specs.Rows.{cell, key_cmp, key_of};
ghost use Rattle.mt_types.specs.Order.{values_cmp};

use mt_types::{List, NoMemory, Row, Value, compare};
use std::alloc::Global;
use std::cmp::Ordering;

/// A copy of the row's values of some columns.
pub fn copy_cells(alloc: Global, columns: &[usize], row: &Row) -> Result<Row, NoMemory>
    ensures { IfOk result (λ copied. copied ≡ key_of columns.now row.now) }
{
    let mut copied = List::with_capacity(alloc, columns.len())?;
    for column in columns {
        copied.push(copy_cell(alloc, *column, row)?)?;
    }
    Ok(copied)
}

fn copy_cell(alloc: Global, column: usize, row: &Row) -> Result<Value, NoMemory>
    ensures { IfOk result (λ copied. copied ≡ cell row.now column) }
{
    match row.as_slice().get(column) {
        Some(value) => value.copy(alloc),
        None => Ok(Value::Null),
    }
}

/// Rows compare by some columns, from left to right.
pub fn compare_cells(columns: &[usize], a: &Row, b: &Row) -> Ordering
    ensures { result ≡ key_cmp columns.now a.now b.now }
{
    let mut rest = columns;
    while let Some((column, after)) = rest.split_first() {
        let x = a.as_slice().get(*column).unwrap_or(&Value::Null);
        let y = b.as_slice().get(*column).unwrap_or(&Value::Null);
        let order = compare(x, y);
        if order != Ordering::Equal {
            return order;
        }
        rest = after;
    }
    Ordering::Equal
}

/// A row's values of some columns compare with other values, a proper prefix first.
pub fn compare_with(columns: &[usize], row: &Row, values: &[Value]) -> Ordering
    ensures { result ≡ values_cmp (key_of columns.now row.now) values.now }
{
    let mut rest = columns;
    let mut others = values;
    while let Some((column, after)) = rest.split_first() {
        let Some((other, left)) = others.split_first() else {
            return Ordering::Greater;
        };
        let value = row.as_slice().get(*column).unwrap_or(&Value::Null);
        let order = compare(value, other);
        if order != Ordering::Equal {
            return order;
        }
        rest = after;
        others = left;
    }
    if others.is_empty() {
        Ordering::Equal
    } else {
        Ordering::Less
    }
}
