//! A box of a cover, whose values stand in the keys.

ghost use Rattle.std.specs.Prelude.{◌≡◌};
ghost use Rattle.std.specs.Option.{option_map};
ghost use Rattle.mt_cond.specs.Intervals.{interval_at};
ghost use Rattle.mt_cond.specs.Cover.{point, sides_of};
ghost use Rattle.mt_cond.specs.Views.{interval_of, walk_spans};

use crate::bounds::{Bounds, between};
use crate::types::KeyColumn;
use mt_types::Value;

/// The first so many values of a key, and then perhaps an interval of the next column.
#[derive(Clone, Copy)]
pub struct Walk<'a> {
    /// The columns of the key.
    pub key: &'a [KeyColumn],
    /// The key.
    pub fixed: &'a [Value],
    /// How many of its values are fixed.
    pub at: usize,
    /// The interval of the column behind them.
    pub last: Option<Bounds<'a>>,
}

/// One value alone.
pub fn point(value: &Value) -> Bounds<'_>
    ensures { interval_of result ≡ point value.now }
{
    between(value, value)
}

impl<'a> Walk<'a> {
    /// The interval of a column, if the box has one.
    pub fn side(self, column: u32) -> Option<Bounds<'a>>
        ensures { option_map interval_of result
            ≡ interval_at (sides_of self.entry.key.now (walk_spans self.entry)) column }
    {
        for (i, k) in self.key.iter().enumerate() {
            if i >= self.at || i >= self.fixed.len() {
                if k.column == column {
                    return self.last;
                }
                return None;
            }
            if k.column == column {
                return Some(point(&self.fixed[i]));
            }
        }
        None
    }
}
