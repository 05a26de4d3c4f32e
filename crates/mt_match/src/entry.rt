//! Entries of the two kinds, read and judged.

ghost use Rattle.std.specs.Prelude.{◌≡◌, ◌^◌, ℕ, List, Some, length, nat_lt, option_map, IfOk, IsTrue};
ghost use Rattle.mt_types.specs.declared.ty.Ty.{Ty};
ghost use Rattle.mt_table.specs.declared.skip.SkipKind.TheVariants.{Minmax, Set};
ghost use Rattle.mt_defs.specs.Marks.{u64_bytes};
ghost use Rattle.mt_item.specs.ItemTypes.{has_items};
ghost use Rattle.mt_item.specs.Results.{IsFirst};
ghost use Rattle.mt_skip.specs.Items.{ReadsItems};
ghost use Rattle.mt_match.specs.Matching.{JudgesEntry, may_among, may_between};

use mt_cond::mask_between;
use mt_item::read_u64;
use mt_query::Cond;
use mt_skip::{are_distinct, read_items};
use mt_types::{NoMemory, Ty, Value, compare};
use std::alloc::Global;
use std::cmp::Ordering;

/// Whether a condition may be true on some row whose value in a column is between two.
fn may_between(cond: &Cond, column: u32, low: &Value, high: &Value) -> bool
    ensures { result ≡ may_between cond.now column low.now high.now }
{
    mask_between(cond, column, low, high).may_true
}

/// Whether a condition may be true on some row whose value in a column is one of these; none of them
/// may stand for any.
fn may_among(cond: &Cond, column: u32, values: &[Value]) -> bool
    ensures { result ≡ may_among cond.now column values.now }
{
    for value in values {
        if may_between(cond, column, value, value) {
            return true;
        }
    }
    values.is_empty()
}

/// Of the two values of an entry, the first not above the second.
fn may_two(cond: &Cond, column: u32, values: &[Value]) -> Option<bool>
    requires { length values.now ≡ 2 }
    ensures { (ty : Ty) (bytes : List ℕ) → ReadsItems ty 2 bytes (Some values.now)
        → JudgesEntry cond.now column Minmax ty bytes result }
{
    let low = &values[0];
    let high = &values[1];
    if compare(low, high) == Ordering::Greater {
        return None;
    }
    Some(may_between(cond, column, low, high))
}

/// An entry of a minmax index: two values, the first not above the second.
pub fn may_minmax(
    alloc: Global,
    cond: &Cond,
    column: u32,
    ty: &Ty,
    entry: &[u8],
) -> Result<Option<bool>, NoMemory>
    requires { IsTrue (has_items ty.now) }
    ensures { IfOk result (JudgesEntry cond.now column Minmax ty.now entry.now) }
{
    match read_items(alloc, ty, 2, entry)? {
        Some(values) => Ok(may_two(cond, column, values.as_slice())),
        None => Ok(None),
    }
}

/// The number of values of a set entry, and the bytes behind it.
fn read_count(entry: &[u8]) -> Option<(u64, &[u8])>
    ensures { IsFirst (λ n. nat_lt n (2 ^ 64)) u64_bytes entry.now
        (option_map (λ read. (read.0, read.1.now)) result) }
{
    read_u64(entry)
}

/// Of the values of an entry, which are to be different.
fn may_differing(
    alloc: Global,
    cond: &Cond,
    column: u32,
    values: &[Value],
) -> Result<Option<bool>, NoMemory>
    ensures { IfOk result (λ may. (max_rows count : ℕ) (ty : Ty) (bytes items : List ℕ)
        → IsFirst (λ n. nat_lt n (2 ^ 64)) u64_bytes bytes (Some (count, items))
        → ReadsItems ty count items (Some values.now)
        → JudgesEntry cond.now column (Set max_rows) ty bytes may) }
{
    if !are_distinct(alloc, values)? {
        return Ok(None);
    }
    Ok(Some(may_among(cond, column, values)))
}

/// An entry of a set index: so many different values.
pub fn may_set(
    alloc: Global,
    cond: &Cond,
    column: u32,
    max_rows: u64,
    ty: &Ty,
    entry: &[u8],
) -> Result<Option<bool>, NoMemory>
    requires { IsTrue (has_items ty.now) }
    ensures { IfOk result (JudgesEntry cond.now column (Set max_rows) ty.now entry.now) }
{
    let Some((count, items)) = read_count(entry) else {
        return Ok(None);
    };
    match read_items(alloc, ty, count, items)? {
        Some(values) => may_differing(alloc, cond, column, values.as_slice()),
        None => Ok(None),
    }
}
