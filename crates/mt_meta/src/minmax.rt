//! The least and the greatest value of a column.

ghost use Rattle.std.specs.Prelude.{◌≡◌, ◌≢◌, ◌<◌, [], ◌∷◌, if◌then◌else◌, All, length};
ghost use Rattle.mt_defs.specs.Rows.{column_values};
ghost use Rattle.mt_meta.specs.Minmax.{is_less, is_greater, least_of, greatest_of};

use crate::cell::cell;
use mt_types::{Row, Value, compare};
use std::cmp::Ordering;

/// The least and the greatest value of a column in some rows (ClickHouse: `IMergeTreeDataPart::MinMaxIndex`).
pub(crate) fn minmax(rows: &[Row], column_index: u32) -> (&Value, &Value)
    requires some { rows.now ≢ [] }
    requires has { All (λ row. column_index < length row) rows.now }
    ensures least { least_of (column_values column_index rows.now) ≡ result.0.now ∷ [] }
    ensures greatest { greatest_of (column_values column_index rows.now) ≡ result.1.now ∷ [] }
{
    let Some((first, others)) = rows.split_first() else {
        unreachable!()
    };
    let mut least = cell(first, column_index);
    let mut greatest = least;
    for row in others {
        let value = cell(row, column_index);
        least = lesser(least, value);
        greatest = greater(greatest, value);
    }
    (least, greatest)
}

/// The second value, if it is less than the first.
fn lesser<'a>(best: &'a Value, value: &'a Value) -> &'a Value
    ensures { result.now ≡ (if is_less value.now best.now then value.now else best.now) }
{
    match compare(value, best) {
        Ordering::Less => value,
        _ => best,
    }
}

/// The second value, if it is greater than the first.
fn greater<'a>(best: &'a Value, value: &'a Value) -> &'a Value
    ensures { result.now ≡ (if is_greater value.now best.now then value.now else best.now) }
{
    match compare(best, value) {
        Ordering::Less => value,
        _ => best,
    }
}
