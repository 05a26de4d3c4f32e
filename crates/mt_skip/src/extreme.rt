//! The least and the greatest of some values.

ghost use Rattle.std.specs.Prelude.{◌≡◌, ◌<◌, ◌∷◌, [], length};
ghost use Rattle.mt_defs.specs.WrittenPartition.{best_of};
ghost use Rattle.mt_skip.specs.Extremes.{is_better, values_at};

use mt_types::{Value, compare};

/// Which end of an order.
#[derive(Clone, Copy)]
pub enum Extreme {
    Least,
    Greatest,
}

/// The place of the least or the greatest value.
pub fn extreme_of(extreme: Extreme, values: &[Value]) -> usize
    requires some { 0 < length values.now }
    ensures within { result < length values.now }
    ensures best { values_at result values.now ≡ best_of (is_better extreme) values.now }
{
    let mut left = values.len() - 1;
    let mut best = left;
    while left > 0 {
        left -= 1;
        if !is_better(extreme, &values[best], &values[left]) {
            best = left;
        }
    }
    best
}

/// Whether a value comes before another, from this end.
fn is_better(extreme: Extreme, value: &Value, other: &Value) -> bool
    ensures { result ≡ is_better extreme value.now other.now }
{
    match extreme {
        Extreme::Least => compare(value, other).is_lt(),
        Extreme::Greatest => compare(other, value).is_lt(),
    }
}
