//! How values inside arrays compare.

ghost use Rattle.std.specs.Prelude.{◌≡◌, ◌<◌, length, slice_index_or};
ghost use Rattle.mt_types.specs.Order.{value_cmp};
ghost use Rattle.mt_types.specs.declared.value.Value.TheVariants.{Null};
ghost use Rattle.mt_columns.specs.Nesting.{AreNested, nested_values};

use crate::leaf::Leaf;
use mt_cells::{Seen, Sizes, compare_seen};
use std::cmp::Ordering;

/// How two values of a level compare: arrays element by element, a proper prefix first. It takes no memory.
pub fn compare_nested(levels: &[Sizes], leaf: &Leaf, a: usize, b: usize) -> Ordering
    requires nested { AreNested levels.now leaf.now.values }
    requires a { a < length (nested_values levels.now leaf.now.values) }
    requires b { b < length (nested_values levels.now leaf.now.values) }
    ensures { result ≡ value_cmp (slice_index_or (nested_values levels.now leaf.now.values) a Null)
        (slice_index_or (nested_values levels.now leaf.now.values) b Null) }
{
    match levels.split_first() {
        None => leaf.compare(a, b),
        Some((first, below)) => {
            let end = first.end(a) as usize;
            let other_end = first.end(b) as usize;
            let mut x = first.start(a) as usize;
            let mut y = first.start(b) as usize;
            'items: while x < end && y < other_end {
                match compare_nested(below, leaf, x, y) {
                    Ordering::Equal => {}
                    order => return order,
                }
                x += 1;
                y += 1;
            }
            (end - x).cmp(&(other_end - y))
        }
    }
}

/// How NULL compares to a value of a level: an array is before it.
pub fn compare_null_nested(levels: &[Sizes], leaf: &Leaf, index: usize) -> Ordering
    requires nested { AreNested levels.now leaf.now.values }
    requires there { index < length (nested_values levels.now leaf.now.values) }
    ensures { result ≡ value_cmp Null (slice_index_or (nested_values levels.now leaf.now.values) index Null) }
{
    match levels.split_first() {
        None => compare_seen(Seen::Null, leaf.seen(index)),
        Some((_, _)) => Ordering::Greater,
    }
}
