//! Ranges of values inside arrays.

ghost use Rattle.std.specs.Prelude.{◌≡◌, ◌++◌, [], ◌+◌, ◌-◌, ◌<◌, ◌≤◌, length, take, drop, IfOk, OnOk, slice_index_or, slice_set};
ghost use Rattle.mt_columns.specs.Nesting.{AreNested, IsPushed, nested_values};

use crate::leaf::Leaf;
use mt_cells::Sizes;
use mt_types::NoMemory;

/// Appends values of another column to those of a level, from an index on and before another: the sizes of
/// arrays, and a range of the level below. The other's levels are those from this one on. On `NoMemory`
/// elements may be left that no array has.
pub fn append_range(
    levels: &mut Vec<Sizes>,
    level: usize,
    leaf: Leaf,
    others: &[Sizes],
    other: &Leaf,
    from: usize,
    to: usize,
) -> Result<Leaf, NoMemory>
    requires many { level + length others.now ≡ length levels.old.items }
    requires nested { AreNested (drop level levels.old.items) leaf.values }
    requires other { AreNested others.now other.now.values }
    requires kind { other.now.kind ≡ leaf.kind }
    requires nullable { other.now.nullable ≡ leaf.nullable }
    requires order { from ≤ to }
    requires there { to ≤ length (nested_values others.now other.now.values) }
    ensures { IfOk result (λ more. IsPushed level levels.old.items levels.new.items leaf more
        (take (to - from) (drop from (nested_values others.now other.now.values)))) }
{
    match others.split_first() {
        None => leaf.append(other, from, to),
        Some((first, below)) => {
            let start = first.start(from) as usize;
            let end = first.start(to) as usize;
            let more = append_range(levels, level + 1, leaf, below, other, start, end)?;
            append_sizes(levels, level, first, from, to)?;
            Ok(more)
        }
    }
}

/// Appends sizes of arrays at a level.
fn append_sizes(
    levels: &mut Vec<Sizes>,
    level: usize,
    other: &Sizes,
    from: usize,
    to: usize,
) -> Result<(), NoMemory>
    requires level { level < length levels.old.items }
    requires order { from ≤ to }
    requires within { to ≤ length other.now }
    ensures { OnOk result (levels.new.items ≡ slice_set levels.old.items level
        (slice_index_or levels.old.items level [] ++ take (to - from) (drop from other.now))) }
{
    levels[level].append(other, from, to)?;
    Ok(())
}
