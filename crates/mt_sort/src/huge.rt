//! Rows with numbers that ranks don't tell apart.

ghost use Rattle.std.specs.Prelude.{◌≡◌};
ghost use Rattle.std.specs.List.{list_any};
ghost use Rattle.mt_sort.specs.Ranks.{has_huge};

use mt_types::{Row, Value};

/// Whether a row has a Huge in one of these columns.
fn has_huge(columns: &[u32], row: &Row) -> bool
    ensures { result ≡ has_huge columns.now row.now }
{
    for column in columns {
        if let Some(Value::Huge(_)) = row.as_slice().get(*column as usize) {
            return true;
        }
    }
    false
}

/// Whether one of the rows has a Huge in one of these columns.
pub fn any_huge(columns: &[u32], rows: &[Row]) -> bool
    ensures { result ≡ list_any (has_huge columns.now) rows.now }
{
    for row in rows {
        if has_huge(columns, row) {
            return true;
        }
    }
    false
}
