//! Whether an entry is the one of some values.

ghost use Rattle.std.specs.Prelude.{◌≡◌, ◌≢◌, ◌↔◌, ◌++◌, ℕ, List, length, IfOk, IsTrue, MatchOption};
ghost use Rattle.std.specs.List.{list_all, list_any};
ghost use Rattle.mt_defs.specs.SkipIndexes.{ListsDistinct, Summarizes, distinct_values, summarizes};
ghost use Rattle.mt_defs.specs.Partition.{IsMinmaxOf};
ghost use Rattle.mt_table.specs.declared.skip.SkipKind.TheVariants.{Set};
ghost use Rattle.mt_item.specs.ItemTypes.{has_items};
ghost use Rattle.mt_skip.specs.Gathering.{has_each, is_same, values_in};
ghost use Rattle.mt_skip.specs.Items.{AllFit};

use crate::distinct::distinct_of;
use crate::entry::minmax_entry;
use crate::listed::read_items;
use crate::seen::Seen;
use indexmap::IndexSet;
use mt_table::{Skip, SkipKind};
use mt_types::{NoMemory, Ty, Value};
use std::alloc::Global;

/// Whether an entry of an index is the one of these values of a column (docs/FORMAT.md, "Skip
/// indexes"): of a minmax index the least and the greatest of them; of a set index each of them once,
/// in any order, or a count of 0 where they are more than its `max_rows`, which isn't 0.
pub fn agrees(
    alloc: Global,
    skip: &Skip,
    ty: &Ty,
    values: &[Value],
    entry: &[u8],
) -> Result<bool, NoMemory>
    requires items { IsTrue (has_items ty.now) }
    requires fit { AllFit ty.now values.now }
    ensures test { IfOk result (λ agrees.
        agrees ≡ summarizes skip.now.kind ty.now values.now entry.now) }
    ensures exact { IfOk result (λ agrees. IsTrue agrees
        ↔ Summarizes skip.now.kind ty.now values.now entry.now) }
{
    match skip.kind {
        SkipKind::Minmax => agrees_minmax(alloc, ty, values, entry),
        SkipKind::Set(max_rows) => agrees_set(alloc, max_rows, ty, values, entry),
    }
}

fn agrees_minmax(alloc: Global, ty: &Ty, values: &[Value], entry: &[u8]) -> Result<bool, NoMemory>
    requires items { IsTrue (has_items ty.now) }
    requires fit { AllFit ty.now values.now }
    ensures { IfOk result (λ agrees. IsTrue agrees ↔ IsMinmaxOf ty.now values.now entry.now) }
{
    if values.is_empty() {
        return Ok(false);
    }
    let written = minmax_entry(alloc, ty, values)?;
    Ok(are_same_bytes(written.as_slice(), entry))
}

fn agrees_set(
    alloc: Global,
    max_rows: u64,
    ty: &Ty,
    values: &[Value],
    entry: &[u8],
) -> Result<bool, NoMemory>
    requires items { IsTrue (has_items ty.now) }
    requires fit { AllFit ty.now values.now }
    ensures { IfOk result (λ agrees. IsTrue agrees
        ↔ Summarizes (Set max_rows) ty.now values.now entry.now) }
{
    match distinct_of(alloc, max_rows, values)? {
        Some(distinct) => lists_distinct(alloc, ty, distinct.len() as u64, values, entry),
        None => Ok(are_same_bytes(entry, &0u64.to_le_bytes())),
    }
}

/// Whether an entry lists the distinct values, of which there are so many, each once.
fn lists_distinct(
    alloc: Global,
    ty: &Ty,
    count: u64,
    values: &[Value],
    entry: &[u8],
) -> Result<bool, NoMemory>
    requires items { IsTrue (has_items ty.now) }
    requires fit { AllFit ty.now values.now }
    requires counted { count ≡ length (distinct_values values.now) }
    ensures { IfOk result (λ lists. IsTrue lists ↔ ListsDistinct ty.now values.now entry.now) }
{
    let Some(bytes) = bytes_behind(&count.to_le_bytes(), entry) else {
        return Ok(false);
    };
    match read_items(alloc, ty, count, bytes)? {
        Some(listed) => has_each(alloc, listed.as_slice(), values),
        None => Ok(false),
    }
}

/// Whether the listed values are distinct and have each of the others.
fn has_each<'a>(alloc: Global, listed: &'a [Value], values: &'a [Value]) -> Result<bool, NoMemory>
    ensures { IfOk result (λ has. has ≡ has_each listed.now values.now) }
{
    let Some(distinct) = distinct_of(alloc, 0, listed)? else {
        return Ok(false);
    };
    if distinct.len() < listed.len() {
        return Ok(false);
    }
    Ok(are_among(&distinct, values))
}

/// Whether a set has each of some values.
fn are_among<'a>(distinct: &IndexSet<Seen<'a>>, values: &'a [Value]) -> bool
    ensures { result ≡ list_all (λ value. list_any (is_same value) (values_in distinct.now.keys))
        values.now }
{
    for value in values {
        if !distinct.contains(&Seen { value }) {
            return false;
        }
    }
    true
}

fn are_same_bytes(a: &[u8], b: &[u8]) -> bool
    ensures { IsTrue result ↔ (a.now ≡ b.now) }
{
    a == b
}

/// What follows some bytes at the start of others, if they stand there.
fn bytes_behind<'a>(front: &[u8], bytes: &'a [u8]) -> Option<&'a [u8]>
    ensures { MatchOption result ((rest : List ℕ) → bytes.now ≢ front.now ++ rest)
        (λ rest. bytes.now ≡ front.now ++ rest.now) }
{
    bytes.strip_prefix(front)
}
