//! Rows compare by the columns of a key.

ghost use Rattle.std.specs.Prelude.{◌≡◌};
ghost use Rattle.mt_types.specs.Order.{value_cmp};
ghost use Rattle.mt_defs.specs.Rows.{cell, key_cmp};

use mt_types::{Row, Value, compare};
use std::cmp::Ordering;

/// Rows compare by the columns of the key, from left to right. A column that a row lacks counts as NULL.
pub fn compare_rows(key: &[u32], a: &Row, b: &Row) -> Ordering
    ensures { result ≡ key_cmp key.now a.now b.now }
{
    let mut rest = key;
    while let Some((column, after)) = rest.split_first() {
        let order = compare_cells(*column, a, b);
        if order != Ordering::Equal {
            return order;
        }
        rest = after;
    }
    Ordering::Equal
}

fn compare_cells(column: u32, a: &Row, b: &Row) -> Ordering
    ensures { result ≡ value_cmp (cell a.now column) (cell b.now column) }
{
    let x = a.as_slice().get(column as usize).unwrap_or(&Value::Null);
    let y = b.as_slice().get(column as usize).unwrap_or(&Value::Null);
    compare(x, y)
}
