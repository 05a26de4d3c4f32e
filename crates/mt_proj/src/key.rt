//! Keys: what of a row is compared.

ghost use Rattle.std.specs.Prelude.{◌≡◌, take};
ghost use Rattle.mt_types.specs.Order.{values_cmp};
ghost use Rattle.mt_proj.specs.Keys.{key_in};

use crate::column::compare_cells;
use mt_types::{Row, Value, compare_items};
use std::cmp::Ordering;

/// What of a row is its key.
#[derive(Clone, Copy)]
pub enum Key<'a> {
    /// Its values of these columns.
    Cells(&'a [usize]),
    /// Its first so many values.
    First(usize),
    /// All its values.
    Whole,
}

/// Rows compare by their keys.
pub fn compare_keys(key: &Key, a: &Row, b: &Row) -> Ordering
    ensures { result ≡ values_cmp (key_in key.now a.now) (key_in key.now b.now) }
{
    match key {
        Key::Cells(columns) => compare_cells(columns, a, b),
        Key::First(count) => compare_items(first_of(*count, a), first_of(*count, b)),
        Key::Whole => compare_items(a.as_slice(), b.as_slice()),
    }
}

/// The first so many values of a row, or all where it has fewer.
pub fn first_of(count: usize, row: &Row) -> &[Value]
    ensures { result.now ≡ take count row.now }
{
    let values = row.as_slice();
    if count < values.len() {
        &values[..count]
    } else {
        values
    }
}
