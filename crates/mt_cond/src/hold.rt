//! Whether a condition may be true on some row whose key is between two keys.

ghost use Rattle.std.specs.Prelude.{◌≡◌, ◌≤◌, ◌<◌, ◌∷◌, ◌&&◌, [], ℕ, List, Some, true, false, not, length, drop, IsTrue, slice_index_or};
ghost use Rattle.std.specs.List.{list_any};
ghost use Rattle.std.specs.Ordering.{is_le};
ghost use Rattle.mt_types.specs.declared.value.Value.{Value};
ghost use Rattle.mt_types.specs.Order.{values_cmp};
ghost use Rattle.mt_table.specs.declared.column.Column.{Column};
ghost use Rattle.mt_defs.specs.Rows.{Row};
ghost use Rattle.mt_query.specs.Truth.{is_same, truth_of};
ghost use Rattle.mt_query.specs.Suits.{cond_suits};
ghost use Rattle.mt_cond.specs.Cover.{spans_between, box_may, from_key, fronts, is_void, may_hold_of, to_key, Spans};
ghost use Rattle.mt_cond.specs.Keys.{key_fits, key_values, types_of, AreKeys, KeyOf};
ghost use Rattle.mt_cond.specs.Views.{interval_of, walk_spans};

use crate::bounds::Bounds;
use crate::masks::{Sides, mask_by};
use crate::ranges::{both_span, from_span, to_span};
use crate::types::KeyColumn;
use crate::walk::Walk;
use mt_query::Cond;
use mt_types::{Value, compare};
use std::cmp::Ordering;

fn may_be(cond: &Cond, walk: Walk<'_>) -> bool
    ensures { result ≡ box_may cond.now walk.entry.key.now (walk_spans walk.entry) }
{
    let sides = Sides::Covering(walk);
    mask_by(cond, &sides).may_true
}

/// Whether the box of some fixed values and an interval isn't empty and may be true.
fn may_box<'a>(
    cond: &Cond,
    key: &'a [KeyColumn],
    fixed: &'a [Value],
    at: usize,
    last: Bounds<'a>,
) -> bool
    ensures { result ≡ not (is_void (interval_of last.entry))
        && box_may cond.now key.now (fronts at fixed.now (interval_of last.entry ∷ [])) }
{
    if last.is_void() {
        return false;
    }
    let walk = Walk {
        key,
        fixed,
        at,
        last: Some(last),
    };
    may_be(cond, walk)
}

/// Whether the box of a key's values may be true.
fn may_point<'a>(cond: &Cond, key: &'a [KeyColumn], fixed: &'a [Value]) -> bool
    ensures { result ≡ box_may cond.now key.now (fronts (length fixed.now) fixed.now []) }
{
    let walk = Walk {
        key,
        fixed,
        at: fixed.len(),
        last: None,
    };
    may_be(cond, walk)
}

/// Whether some box of the keys from `lo` on may be true, where its first `from` values are fixed.
fn may_past<'a>(cond: &Cond, key: &'a [KeyColumn], lo: &'a [Value], from: usize) -> bool
    requires lengths { length key.now ≡ length lo.now }
    requires within { from ≤ length lo.now }
    ensures { result ≡ list_any (λ is. box_may cond.now key.now (fronts from lo.now is))
        (from_key (types_of (drop from key.now)) (drop from lo.now)) }
{
    for i in from..lo.len() {
        let last = from_span(&key[i], &lo[i]);
        if may_box(cond, key, lo, i, last) {
            return true;
        }
    }
    may_point(cond, key, lo)
}

/// Whether some box of the keys up to `hi` may be true, where its first `from` values are fixed.
fn may_before<'a>(cond: &Cond, key: &'a [KeyColumn], hi: &'a [Value], from: usize) -> bool
    requires lengths { length key.now ≡ length hi.now }
    requires within { from ≤ length hi.now }
    ensures { result ≡ list_any (λ is. box_may cond.now key.now (fronts from hi.now is))
        (to_key (types_of (drop from key.now)) (drop from hi.now)) }
{
    for i in from..hi.len() {
        let last = to_span(&key[i], &hi[i]);
        if may_box(cond, key, hi, i, last) {
            return true;
        }
    }
    may_point(cond, key, hi)
}

/// Whether some box of the cover of two keys that differ first at a place may be true.
fn may_apart<'a>(
    cond: &Cond,
    key: &'a [KeyColumn],
    lo: &'a [Value],
    hi: &'a [Value],
    at: usize,
) -> bool
    requires lengths { length key.now ≡ length lo.now }
    requires same_lengths { length key.now ≡ length hi.now }
    requires within { at < length lo.now }
    requires apart { (l h : Value) → is_same (slice_index_or lo.now at l) (slice_index_or hi.now at h) ≡ false }
    requires alike { (is : Spans) → fronts at lo.now is ≡ fronts at hi.now is }
    ensures { result ≡ list_any (λ is. box_may cond.now key.now (fronts at lo.now is))
        (spans_between (types_of (drop at key.now)) (drop at lo.now) (drop at hi.now)) }
{
    let last = both_span(&key[at], &lo[at], &hi[at]);
    if may_box(cond, key, lo, at, last) {
        return true;
    }
    if may_past(cond, key, lo, at + 1) {
        return true;
    }
    may_before(cond, key, hi, at + 1)
}

/// Whether some box of the cover of two keys may make a condition true (ClickHouse:
/// `KeyCondition::mayBeTrueInRange`). It takes no memory.
pub fn may_hold<'a>(cond: &Cond, key: &'a [KeyColumn], lo: &'a [Value], hi: &'a [Value]) -> bool
    requires lengths { length key.now ≡ length lo.now }
    requires same_lengths { length key.now ≡ length hi.now }
    ensures exact { result ≡ may_hold_of cond.now key.now lo.now hi.now }

    // Where it says no, no row whose key is between the two makes the condition true, whatever its other columns hold.
    ensures sound { (columns : List Column) (row : Row)
        → AreKeys key.now lo.now hi.now → KeyOf columns key.now → IsTrue (cond_suits columns cond.now)
        → IsTrue (key_fits (types_of key.now) (key_values key.now row))
        → IsTrue (is_le (values_cmp lo.now (key_values key.now row)))
        → IsTrue (is_le (values_cmp (key_values key.now row) hi.now))
        → truth_of cond.now row ≡ Some true → result ≡ true }
{
    for (i, l) in lo.iter().enumerate() {
        if compare(l, &hi[i]) != Ordering::Equal {
            return may_apart(cond, key, lo, hi, i);
        }
    }
    may_point(cond, key, lo)
}
