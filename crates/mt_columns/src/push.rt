//! One more value inside arrays.

ghost use Rattle.std.specs.Prelude.{◌≡◌, ◌++◌, ◌∷◌, [], ◌-◌, ◌<◌, ◌≤◌, length, drop, IsTrue, OnOk, slice_index_or, slice_set};
ghost use Rattle.mt_columns.specs.Leaves.{leaf_fits};
ghost use Rattle.mt_columns.specs.Nesting.{AreNested, IsPushed, fits_depth};

use crate::leaf::Leaf;
use mt_cells::{Seen, Sizes};
use mt_types::{NoMemory, Value};

/// Appends a value to those of a level. On `NoMemory` elements may be left that no array has.
pub fn push_value(
    levels: &mut Vec<Sizes>,
    level: usize,
    leaf: &mut Leaf,
    value: &Value,
) -> Result<(), NoMemory>
    requires within { level ≤ length levels.old.items }
    requires nested { AreNested (drop level levels.old.items) leaf.old.values }
    requires fits { IsTrue (fits_depth (leaf_fits leaf.old.nullable leaf.old.kind)
        (length levels.old.items - level) value.now) }
    ensures { OnOk result (IsPushed level levels.old.items levels.new.items leaf.old leaf.new
        (value.now ∷ [])) }
{
    if level == levels.len() {
        return leaf.push(Seen::of(value));
    }
    match value {
        Value::List(items) => {
            for item in items.as_slice() {
                push_value(levels, level + 1, leaf, item)?;
            }
            end_array(levels, level, items.len())
        }
        _ => unreachable!(),
    }
}

/// Appends the size of an array at a level.
fn end_array(levels: &mut Vec<Sizes>, level: usize, size: usize) -> Result<(), NoMemory>
    requires { level < length levels.old.items }
    ensures { OnOk result (levels.new.items ≡ slice_set levels.old.items level
        (slice_index_or levels.old.items level [] ++ size ∷ [])) }
{
    levels[level].push(size as u64)?;
    Ok(())
}
