//! What shows the values of some rows.

ghost use Rattle.std.specs.Prelude.{◌≡◌, ◌<◌, ℕ, Bool, List, length, IsTrue};
ghost use Rattle.mt_defs.specs.Rows.{Row, cell};
ghost use Rattle.mt_look.specs.Seen.{row_by_index, value_seen};

use crate::seen::Seen;

/// What shows the values of some rows, of all columns or of some (ClickHouse: `IColumn`, the columns of a `Block`).
pub trait Look {
    /// The rows.
    ghost rows_of: { Self → List Row };

    /// The columns that are shown, by their indexes.
    ghost shows: { Self → ℕ → Bool };

    /// The number of rows.
    fn rows(&self) -> u64
        ensures { result ≡ length (rows_of self.now) };

    /// The value of a column in a row, both by their indexes from 0. It takes no memory.
    fn item(&self, column: u32, row: u64) -> Seen<'_>
        requires shown { IsTrue (shows self.now column) }
        requires there { row < length (rows_of self.now) }
        ensures { value_seen result ≡ cell (row_by_index (rows_of self.now) row) column };
}
