//! The stable order of rows by the columns of a key.

ghost use Rattle.std.specs.Prelude.{◌≡◌, ◌<◌, map, All, IfOk, IsTrue, slice_index_or};
ghost use Rattle.mt_types.specs.Order.{value_cmp};
ghost use Rattle.mt_types.specs.declared.value.Value.TheVariants.{Null};
ghost use Rattle.mt_defs.specs.Sorting.{sorted_by};
ghost use Rattle.mt_blocks.specs.Ranks.{IsRanked};
ghost use Rattle.mt_blocks.specs.Rows.{indexes};
ghost use Rattle.mt_blocks.specs.Sorting.{NeverFalls, first_rank, first_scale, index_cmp, place_at};
ghost use Rattle.mt_blocks.specs.Sorting.{place_cmp, rank_after, scales_of, second_rank, tied_cmp, untold};
ghost use Rattle.mt_blocks.specs.Sorting.{untold_behind};

use crate::rank::{Scale, is_decided, rank_at, scale_of};
use mt_columns::Column;
use mt_types::NoMemory;
use std::alloc::Global;
use std::cmp::Ordering;

/// A row's index, beside the ranks of its values in the first two key columns.
#[derive(Clone, Copy)]
pub(crate) struct Place {
    /// The rank in the first column.
    pub rank: u64,
    /// The rank in the second, or 0 where the first rank is not decided.
    pub second: u64,
    /// The row's index.
    pub index: usize,
}

/// How the first two key columns are ranked; as texts, of which no rank is decided, where there is none.
#[derive(Clone, Copy)]
pub(crate) struct Scales {
    /// The scale of the first.
    pub first: Scale,
    /// The scale of the second.
    pub second: Scale,
}

/// The indexes of so many rows in the order of key columns, rows of equal key in the order that they
/// had. Only where ranks tie are columns compared, and of these only those that the ranks don't decide. A
/// value that a column lacks counts as NULL.
pub fn sorted_order(
    alloc: Global,
    columns: &[&Column],
    count: usize,
) -> Result<Vec<usize>, NoMemory>
    ensures sorted { IfOk result (λ order. order.items
        ≡ sorted_by (index_cmp columns.now) (indexes count)) }
    ensures within { IfOk result (λ order. All (λ index. index < count) order.items) }
{
    know_ranked(columns);
    let scales = scales_of(columns);
    let mut places = places_of(alloc, columns, count)?;
    places.sort_by(|a, b| compare_places(columns, scales, a, b))?;
    indexes_of(alloc, places)
}

/// What ranks tell stands on this: numbers of at most 64 bits are no Huge. (A law: it does nothing.)
fn know_ranked(columns: &[&Column])
    ensures { All (λ column. IsRanked column.now) columns.now }
{
    for column in columns {
        column.are_narrow();
    }
}

/// Whether no row is above the next.
pub(crate) fn never_falls(columns: &[&Column], count: usize) -> bool
    ensures { IsTrue result → NeverFalls (index_cmp columns.now) count }
{
    for index in 1..count {
        if compare_rows(columns, index - 1, index) == Ordering::Greater {
            return false;
        }
    }
    true
}

/// Each row's place.
fn places_of(alloc: Global, columns: &[&Column], count: usize) -> Result<Vec<Place>, NoMemory>
    ensures { IfOk result (λ places. places.items ≡ map (place_at columns.now) (indexes count)) }
{
    let mut places = Vec::with_capacity(alloc, count)?;
    for index in 0..count {
        let rank = first_rank(columns, index);
        let second = second_rank(columns, rank, index);
        places.push(Place {
            rank,
            second,
            index,
        })?;
    }
    Ok(places)
}

/// The indexes without the ranks.
fn indexes_of(alloc: Global, places: Vec<Place>) -> Result<Vec<usize>, NoMemory>
    ensures { IfOk result (λ order. order.items ≡ map (λ p. p.index) places.items) }
{
    let mut order = Vec::with_capacity(alloc, places.len())?;
    for Place { index, .. } in places {
        order.push(index)?;
    }
    Ok(order)
}

/// The rank of a row's value in the first column; 0 where there is none.
fn first_rank(columns: &[&Column], index: usize) -> u64
    ensures { result ≡ first_rank columns.now index }
{
    match columns.split_first() {
        Some((first, _)) => rank_at(first, index),
        None => 0,
    }
}

/// The rank of a row's value in the second column, where its rank in the first leaves one value.
fn second_rank(columns: &[&Column], rank: u64, index: usize) -> u64
    ensures { result ≡ second_rank columns.now rank index }
{
    match columns.split_first() {
        Some((first, others)) => rank_after(scale_of(first), rank, others, index),
        None => 0,
    }
}

fn rank_after(scale: Scale, rank: u64, others: &[&Column], index: usize) -> u64
    ensures { result ≡ rank_after scale rank others.now index }
{
    if is_decided(scale, rank) {
        first_rank(others, index)
    } else {
        0
    }
}

/// The scales of the first two columns.
fn scales_of(columns: &[&Column]) -> Scales
    ensures { result ≡ scales_of columns.now }
{
    match columns.split_first() {
        Some((first, others)) => Scales {
            first: scale_of(first),
            second: first_scale(others),
        },
        None => Scales {
            first: Scale::Texts,
            second: Scale::Texts,
        },
    }
}

/// The scale of the first column.
fn first_scale(columns: &[&Column]) -> Scale
    ensures { result ≡ first_scale columns.now }
{
    match columns.split_first() {
        Some((first, _)) => scale_of(first),
        None => Scale::Texts,
    }
}

/// By rank, and by what the ranks don't decide only where they tie.
fn compare_places(columns: &[&Column], scales: Scales, a: &Place, b: &Place) -> Ordering
    ensures { result ≡ place_cmp columns.now scales a.now b.now }
{
    match a.rank.cmp(&b.rank) {
        Ordering::Equal => compare_tied(columns, scales, a, b),
        order => order,
    }
}

#[tactic(auto, using(crate::proofs::SortLemmas::untold_both))]
fn compare_tied(columns: &[&Column], scales: Scales, a: &Place, b: &Place) -> Ordering
    requires { a.now.rank ≡ b.now.rank }
    ensures { result ≡ tied_cmp columns.now scales a.now b.now }
{
    match a.second.cmp(&b.second) {
        Ordering::Equal => compare_untold(columns, scales, a, b),
        order => order,
    }
}

/// By the columns that the ranks of the first place don't decide. Out of line, so that the sort's own
/// loop stays small.
#[inline(never)]
fn compare_untold(columns: &[&Column], scales: Scales, a: &Place, b: &Place) -> Ordering
    ensures { result ≡ index_cmp (untold columns.now scales a.now.rank a.now.second) a.now.index b.now.index }
{
    match columns.split_first() {
        Some((_, others)) => {
            if is_decided(scales.first, a.rank) {
                compare_behind(others, scales.second, a, b)
            } else {
                compare_rows(columns, a.index, b.index)
            }
        }
        None => Ordering::Equal,
    }
}

/// The same of the columns from the second on.
fn compare_behind(columns: &[&Column], scale: Scale, a: &Place, b: &Place) -> Ordering
    ensures { result ≡ index_cmp (untold_behind columns.now scale a.now.second) a.now.index b.now.index }
{
    match columns.split_first() {
        Some((_, others)) => {
            if is_decided(scale, a.second) {
                compare_rows(others, a.index, b.index)
            } else {
                compare_rows(columns, a.index, b.index)
            }
        }
        None => Ordering::Equal,
    }
}

/// How two rows compare, column by column.
fn compare_rows(columns: &[&Column], a: usize, b: usize) -> Ordering
    ensures { result ≡ index_cmp columns.now a b }
{
    for column in columns {
        match column.compare_or_null(a, b) {
            Ordering::Equal => {}
            order => return order,
        }
    }
    Ordering::Equal
}
