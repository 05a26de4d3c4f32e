//! The boxes that hold all keys between two, one after another.

ghost use Rattle.std.specs.Prelude.{◌≡◌, ◌≤◌, ◌<◌, ◌++◌, ◌∷◌, [], ℕ, false, map, length, drop, IfOk, OnOk, slice_index_or};
ghost use Rattle.mt_types.specs.declared.value.Value.{Value};
ghost use Rattle.mt_query.specs.Truth.{is_same};
ghost use Rattle.mt_cond.specs.Cover.{spans_between, cover_of, from_key, fronts, sides_of, some_box, to_key, Spans};
ghost use Rattle.mt_cond.specs.Keys.{types_of};
ghost use Rattle.mt_cond.specs.Views.{end_of, interval_of};

use crate::bounds::{Bound, Bounds};
use crate::ranges::{both_span, from_span, to_span};
use crate::types::{End, Interval, KeyColumn, Side};
use crate::walk::point;
use mt_types::{List, NoMemory, Value, compare};
use std::alloc::Global;
use std::cmp::Ordering;

impl Bound<'_> {
    /// The same end with its value copied.
    fn end(self, alloc: Global) -> Result<End, NoMemory>
        ensures { IfOk result (λ end. end ≡ end_of self.entry) }
    {
        match self {
            Bound::Free => Ok(End::Free),
            Bound::At(value) => Ok(End::At(value.copy(alloc)?)),
            Bound::Number(n) => Ok(End::At(Value::Num(n))),
            Bound::Huge(n) => Ok(End::At(Value::Huge(n))),
            Bound::Past(value) => Ok(End::Past(value.copy(alloc)?)),
        }
    }
}

impl Bounds<'_> {
    /// The same interval with its values copied.
    fn interval(self, alloc: Global) -> Result<Interval, NoMemory>
        ensures { IfOk result (λ interval. interval ≡ interval_of self.entry) }
    {
        let lo = self.lo.end(alloc)?;
        let hi = self.hi.end(alloc)?;
        Ok(Interval { lo, hi })
    }
}

/// The sides of a key's first values.
fn fixed_sides(
    alloc: Global,
    key: &[KeyColumn],
    fixed: &[Value],
    at: usize,
) -> Result<List<Side>, NoMemory>
    requires columns { at ≤ length key.now }
    requires values { at ≤ length fixed.now }
    ensures { IfOk result (λ sides. sides ≡ sides_of key.now (fronts at fixed.now [])) }
{
    let mut sides = List::new(alloc);
    for i in 0..at {
        let interval = point(&fixed[i]).interval(alloc)?;
        sides.push(Side {
            column: key[i].column,
            interval,
        })?;
    }
    Ok(sides)
}

/// The sides of a key's first values, and one of the next column.
fn box_sides(
    alloc: Global,
    key: &[KeyColumn],
    fixed: &[Value],
    at: usize,
    last: Bounds<'_>,
) -> Result<List<Side>, NoMemory>
    requires columns { at < length key.now }
    requires values { at ≤ length fixed.now }
    ensures { IfOk result (λ sides. sides
        ≡ sides_of key.now (fronts at fixed.now (interval_of last.entry ∷ []))) }
{
    let mut sides = fixed_sides(alloc, key, fixed, at)?;
    let interval = last.interval(alloc)?;
    sides.push(Side {
        column: key[at].column,
        interval,
    })?;
    Ok(sides)
}

/// Appends the box of some fixed values and an interval, unless it is empty.
fn push_box(
    alloc: Global,
    key: &[KeyColumn],
    fixed: &[Value],
    at: usize,
    last: Bounds<'_>,
    boxes: &mut List<List<Side>>,
) -> Result<(), NoMemory>
    requires columns { at < length key.now }
    requires values { at ≤ length fixed.now }
    ensures { OnOk result (boxes.new ≡ boxes.old
        ++ map (λ is. sides_of key.now (fronts at fixed.now is)) (some_box (interval_of last.entry))) }
{
    if last.is_void() {
        return Ok(());
    }
    let sides = box_sides(alloc, key, fixed, at, last)?;
    boxes.push(sides)?;
    Ok(())
}

/// Appends the box of a key's values.
fn push_point(
    alloc: Global,
    key: &[KeyColumn],
    fixed: &[Value],
    boxes: &mut List<List<Side>>,
) -> Result<(), NoMemory>
    requires { length key.now ≡ length fixed.now }
    ensures { OnOk result (boxes.new ≡ boxes.old
        ++ sides_of key.now (fronts (length fixed.now) fixed.now []) ∷ []) }
{
    let sides = fixed_sides(alloc, key, fixed, fixed.len())?;
    boxes.push(sides)?;
    Ok(())
}

/// Appends the boxes of the keys from `lo` on, where its first `from` values are fixed.
fn push_past(
    alloc: Global,
    key: &[KeyColumn],
    lo: &[Value],
    from: usize,
    boxes: &mut List<List<Side>>,
) -> Result<(), NoMemory>
    requires lengths { length key.now ≡ length lo.now }
    requires within { from ≤ length lo.now }
    ensures { OnOk result (boxes.new ≡ boxes.old
        ++ map (λ is. sides_of key.now (fronts from lo.now is))
        (from_key (types_of (drop from key.now)) (drop from lo.now))) }
{
    for i in from..lo.len() {
        let last = from_span(&key[i], &lo[i]);
        push_box(alloc, key, lo, i, last, boxes)?;
    }
    push_point(alloc, key, lo, boxes)?;
    Ok(())
}

/// Appends the boxes of the keys up to `hi`, where its first `from` values are fixed.
fn push_before(
    alloc: Global,
    key: &[KeyColumn],
    hi: &[Value],
    from: usize,
    boxes: &mut List<List<Side>>,
) -> Result<(), NoMemory>
    requires lengths { length key.now ≡ length hi.now }
    requires within { from ≤ length hi.now }
    ensures { OnOk result (boxes.new ≡ boxes.old
        ++ map (λ is. sides_of key.now (fronts from hi.now is))
        (to_key (types_of (drop from key.now)) (drop from hi.now))) }
{
    for i in from..hi.len() {
        let last = to_span(&key[i], &hi[i]);
        push_box(alloc, key, hi, i, last, boxes)?;
    }
    push_point(alloc, key, hi, boxes)?;
    Ok(())
}

/// The cover of two keys that differ first at a place.
fn apart(
    alloc: Global,
    key: &[KeyColumn],
    lo: &[Value],
    hi: &[Value],
    at: usize,
) -> Result<List<List<Side>>, NoMemory>
    requires lengths { length key.now ≡ length lo.now }
    requires same_lengths { length key.now ≡ length hi.now }
    requires within { at < length lo.now }
    requires apart { (l h : Value) → is_same (slice_index_or lo.now at l) (slice_index_or hi.now at h) ≡ false }
    requires alike { (is : Spans) → fronts at lo.now is ≡ fronts at hi.now is }
    ensures { IfOk result (λ boxes. boxes ≡ map (λ is. sides_of key.now (fronts at lo.now is))
        (spans_between (types_of (drop at key.now)) (drop at lo.now) (drop at hi.now))) }
{
    let mut boxes = List::new(alloc);
    let last = both_span(&key[at], &lo[at], &hi[at]);
    push_box(alloc, key, lo, at, last, &mut boxes)?;
    push_past(alloc, key, lo, at + 1, &mut boxes)?;
    push_before(alloc, key, hi, at + 1, &mut boxes)?;
    Ok(boxes)
}

/// The boxes that hold all keys from `lo` to `hi`, in order, with no empty one (ClickHouse: the hyperrectangles of
/// `KeyCondition::mayBeTrueInRange`).
pub fn cover(
    alloc: Global,
    key: &[KeyColumn],
    lo: &[Value],
    hi: &[Value],
) -> Result<List<List<Side>>, NoMemory>
    requires lengths { length key.now ≡ length lo.now }
    requires same_lengths { length key.now ≡ length hi.now }
    ensures { IfOk result (λ boxes. boxes ≡ cover_of key.now lo.now hi.now) }
{
    for (i, l) in lo.iter().enumerate() {
        if compare(l, &hi[i]) != Ordering::Equal {
            return apart(alloc, key, lo, hi, i);
        }
    }
    let mut boxes = List::new(alloc);
    push_point(alloc, key, lo, &mut boxes)?;
    Ok(boxes)
}
