//! The values of a row.

ghost use Rattle.std.specs.Prelude.{◌≡◌, ◌<◌, length};
ghost use Rattle.mt_defs.specs.Rows.{cell};

use mt_types::{Row, Value};

/// The value of a column, by the column's place.
pub(crate) fn cell(row: &Row, column_index: u32) -> &Value
    requires { column_index < length row.now }
    ensures { result.now ≡ cell row.now column_index }
{
    &row.as_slice()[column_index as usize]
}
