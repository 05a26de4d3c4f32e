//! Rows compare by the items of a query.

ghost use Rattle.std.specs.Prelude.{◌≡◌};
ghost use Rattle.mt_types.specs.Order.{value_cmp};
ghost use Rattle.mt_defs.specs.Rows.{cell};
ghost use Rattle.mt_exec.specs.Plain.{items_cmp};
ghost use Rattle.mt_fold.specs.Answer.{plain_item};

use mt_query::Item;
use mt_types::{Row, Value, compare};
use std::cmp::Ordering;

/// Rows compare by their values of the items, from left to right. It takes no memory.
pub fn compare_rows(items: &[Item], a: &Row, b: &Row) -> Ordering
    ensures { result ≡ items_cmp items.now a.now b.now }
{
    let mut rest = items;
    while let Some((item, after)) = rest.split_first() {
        let order = compare_item(*item, a, b);
        if order != Ordering::Equal {
            return order;
        }
        rest = after;
    }
    Ordering::Equal
}

fn compare_item(item: Item, a: &Row, b: &Row) -> Ordering
    ensures { result ≡ value_cmp (plain_item a.now item) (plain_item b.now item) }
{
    match item {
        Item::Column(column) => compare_cells(column, a, b),
        _ => compare(&Value::Null, &Value::Null),
    }
}

fn compare_cells(column: u32, a: &Row, b: &Row) -> Ordering
    ensures { result ≡ value_cmp (cell a.now column) (cell b.now column) }
{
    let x = a.as_slice().get(column as usize).unwrap_or(&Value::Null);
    let y = b.as_slice().get(column as usize).unwrap_or(&Value::Null);
    compare(x, y)
}
