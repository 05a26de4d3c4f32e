//! Writing a column: a range of its values as substreams.

ghost use Rattle.std.specs.Prelude.{◌≡◌, ◌∷◌, ◌++◌, ◌-◌, ◌≤◌, IfOk, IsTrue, OnOk, length, take, drop};
ghost use Rattle.std.specs.List.{list_all};
ghost use Rattle.mt_types.specs.Fits.{fits_of};
ghost use Rattle.mt_types.specs.Profile.{is_profile};
ghost use Rattle.mt_defs.specs.WrittenStreams.{written_streams};
ghost use Rattle.mt_columns.specs.Nesting.{AreNested, has_arrays, nested_values};
ghost use Rattle.mt_columns.specs.Shapes.{IsOfType, shape_of};

use crate::written::{items_of, sizes_of};
use mt_cells::Sizes;
use mt_columns::{Column, Leaf};
use mt_types::{List, NoMemory, Ty};
use std::alloc::Global;

/// The writer's substreams of a column's values, those from an index on and before another, with the
/// type's default in the place of NULL.
pub fn encode_column(
    alloc: Global,
    ty: &Ty,
    column: &Column,
    from: usize,
    to: usize,
) -> Result<List<List<u8>>, NoMemory>
    requires profile { IsTrue (is_profile ty.now) }
    requires shape { IsOfType ty.now column.now }
    requires fit { IsTrue (list_all (fits_of ty.now) column.now.values) }
    requires order { from ≤ to }
    requires within { to ≤ length column.now.values }
    ensures { IfOk result (λ streams. streams
        ≡ written_streams ty.now (take (to - from) (drop from column.now.values))) }
{
    let (levels, leaf) = column.parts();
    let mut streams = List::new(alloc);
    append_streams(alloc, ty, levels, leaf, from, to, &mut streams)?;
    Ok(streams)
}

/// Appends the substreams of a range of the values of a level of arrays.
fn append_streams(
    alloc: Global,
    ty: &Ty,
    levels: &[Sizes],
    leaf: &Leaf,
    from: usize,
    to: usize,
    streams: &mut List<List<u8>>,
) -> Result<(), NoMemory>
    requires profile { IsTrue (is_profile ty.now) }
    requires depth { length levels.now ≡ (shape_of ty.now).depth }
    requires nullable { leaf.now.nullable ≡ (shape_of ty.now).nullable }
    requires kind { leaf.now.kind ≡ (shape_of ty.now).kind }
    requires nested { AreNested levels.now leaf.now.values }
    requires fit { IsTrue (list_all (fits_of ty.now) (nested_values levels.now leaf.now.values)) }
    requires order { from ≤ to }
    requires within { to ≤ length (nested_values levels.now leaf.now.values) }
    ensures { OnOk result (streams.new ≡ streams.old ++ written_streams ty.now
        (take (to - from) (drop from (nested_values levels.now leaf.now.values)))) }
{
    match ty {
        Ty::Nullable(inner) => {
            let inner = inner.get();
            streams.push(List::of_bytes(alloc, leaf.null_map(from, to))?)?;
            streams.push(items_of(alloc, inner, leaf.items(), from, to)?)
        }
        Ty::Array(inner) => {
            let inner = inner.get();
            let (first, below) = split_level(levels);
            streams.push(sizes_of(alloc, first, from, to)?)?;
            let start = first.start(from) as usize;
            let end = first.start(to) as usize;
            append_streams(alloc, inner, below, leaf, start, end, streams)
        }
        _ => streams.push(items_of(alloc, ty, leaf.items(), from, to)?),
    }
}

/// The sizes of the outermost arrays, and the levels below.
fn split_level(levels: &[Sizes]) -> (&Sizes, &[Sizes])
    requires { IsTrue (has_arrays levels.now) }
    ensures { levels.now ≡ result.0.now ∷ result.1.now }
{
    match levels.split_first() {
        Some((first, below)) => (first, below),
        None => unreachable!(),
    }
}
