//! Rows that lie in memory.

ghost use Rattle.std.specs.Prelude.{◌≡◌, true};
ghost use Rattle.mt_defs.specs.Rows.{cell};
ghost use Rattle.mt_look.specs.Seen.{value_seen};

use crate::look::Look;
use crate::seen::Seen;
use mt_types::{Row, Value};

/// Rows that lie in memory. Every column is shown; one that a row lacks is NULL.
#[derive(Clone, Copy)]
pub struct Rows<'a> {
    /// The rows.
    pub list: &'a [Row],
}

impl<'a> Look for Rows<'a> {
    ghost rows_of = { λ rows. rows.list.now };

    ghost shows = { λ rows column. true };

    fn rows(&self) -> u64 {
        self.list.len() as u64
    }

    fn item(&self, column: u32, row: u64) -> Seen<'_> {
        match self.list.get(row as usize) {
            Some(values) => seen_at(values.as_slice(), column as usize),
            None => Seen::Null,
        }
    }
}

/// The value of a column, by its index; NULL where the row has none.
fn seen_at(values: &[Value], column: usize) -> Seen<'_>
    ensures { value_seen result ≡ cell values.now column }
{
    match values.get(column) {
        Some(value) => Seen::of(value),
        None => Seen::Null,
    }
}
