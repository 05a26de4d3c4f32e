//! Values inside arrays: each array is a range of the values one level below.

ghost use Rattle.std.specs.Prelude.{◌≡◌, ◌<◌, ◌≤◌, ◌-◌, length, take, drop, slice_index_or, IsTrue, false};
ghost use Rattle.mt_types.specs.declared.value.Value.TheVariants.{Null, List as Items};
ghost use Rattle.mt_columns.specs.Nesting.{AreNested, has_arrays, inner_values, nested_values};
ghost use Rattle.mt_cells.specs.Seen.{value_seen};

use crate::leaf::Leaf;
use mt_cells::{Seen, Sizes};

/// How many values there are.
pub fn nested_len(levels: &[Sizes], leaf: &Leaf) -> usize
    ensures { result ≡ length (nested_values levels.now leaf.now.values) }
{
    match levels.split_first() {
        Some((first, _)) => first.len(),
        None => leaf.len(),
    }
}

/// A value that is no array.
pub fn nested_seen<'a>(levels: &[Sizes], leaf: &'a Leaf, index: usize) -> Seen<'a>
    requires level { has_arrays levels.now ≡ false }
    requires there { index < length (nested_values levels.now leaf.now.values) }
    ensures { value_seen result ≡ slice_index_or (nested_values levels.now leaf.now.values) index Null }
{
    leaf.seen(index)
}

/// Where the elements of an array lie among the values one level below.
pub fn elements(levels: &[Sizes], leaf: &Leaf, index: usize) -> (u64, u64)
    requires level { IsTrue (has_arrays levels.now) }
    requires nested { AreNested levels.now leaf.now.values }
    requires there { index < length (nested_values levels.now leaf.now.values) }
    ensures order { result.0 ≤ result.1 }
    ensures within { result.1 ≤ length (inner_values levels.now leaf.now.values) }
    ensures value { slice_index_or (nested_values levels.now leaf.now.values) index Null
        ≡ Items (take (result.1 - result.0) (drop result.0 (inner_values levels.now leaf.now.values))) }
{
    match levels.split_first() {
        Some((first, _)) => (first.start(index), first.end(index)),
        None => unreachable!(),
    }
}
