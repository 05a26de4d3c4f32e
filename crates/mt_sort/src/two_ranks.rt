//! Rows in the order of a key, each beside the ranks of its first two key columns.

ghost use Rattle.std.specs.Prelude.{◌≡◌, ◌∷◌, map, IfOk, false};
ghost use Rattle.std.specs.List.{list_any};
ghost use Rattle.mt_types.specs.Order.{values_cmp};
ghost use Rattle.mt_defs.specs.Sorting.{sorted_rows};
ghost use Rattle.mt_sort.specs.Ranks.{has_huge};
ghost use Rattle.mt_sort.specs.RankedTwice.{are_decided, key_left, ranked_cmp, ranked_row, second_rank};

use crate::compare::compare_rows;
use crate::rank::{Scale, column_rank, is_decided};
use mt_types::{List, NoMemory, Row};
use std::alloc::Global;
use std::cmp::Ordering;

/// The scales of the first two key columns.
#[derive(Clone, Copy)]
pub struct Scales {
    /// That of the first.
    pub first: Scale,
    /// That of the second, if there is one.
    pub second: Scale,
}

/// A row and its ranks. The ranks lie in the list that is sorted, and the row's values do not.
#[derive(Drop)]
pub struct TwoRanks {
    /// The rank of the row's first key column.
    pub first: u64,
    /// The rank of its second key column, or 0 where the first rank is not decided.
    pub second: u64,
    /// The row.
    pub row: Row,
}

/// The rows in the order of a key of this first column and others, rows of equal key in the order that
/// they had. No row is copied. On `NoMemory` the rows are dropped.
pub fn sort_by_two_ranks(
    alloc: Global,
    scales: Scales,
    column: u32,
    others: &[u32],
    key: &[u32],
    rows: List<Row>,
) -> Result<List<Row>, NoMemory>
    requires whole { key.now ≡ column ∷ others.now }
    requires ranked { list_any (has_huge key.now) rows ≡ false }
    ensures { IfOk result (λ sorted. sorted ≡ sorted_rows key.now rows) }
{
    let mut ranked = with_ranks(alloc, scales, column, others, rows)?;
    ranked.sort_by(|a, b| compare_ranked(scales, key, a, b))?;
    without_ranks(alloc, ranked)
}

/// Each row with its ranks.
fn with_ranks(
    alloc: Global,
    scales: Scales,
    column: u32,
    others: &[u32],
    rows: List<Row>,
) -> Result<Vec<TwoRanks>, NoMemory>
    ensures { IfOk result (λ made. made.items ≡ map (ranked_row scales (column ∷ others.now)) rows) }
{
    let mut made = Vec::with_capacity(alloc, rows.len())?;
    for row in rows.into_vec() {
        let first = column_rank(scales.first, column, &row);
        let second = second_rank(scales, first, others, &row);
        made.push(TwoRanks { first, second, row })?;
    }
    Ok(made)
}

/// The rank of the second key column, where the first rank is decided.
fn second_rank(scales: Scales, first: u64, others: &[u32], row: &Row) -> u64
    ensures { result ≡ second_rank scales first others.now row.now }
{
    let Some((column, _)) = others.split_first() else {
        return 0;
    };
    if is_decided(scales.first, first) {
        column_rank(scales.second, *column, row)
    } else {
        0
    }
}

/// The rows without their ranks.
fn without_ranks(alloc: Global, ranked: Vec<TwoRanks>) -> Result<List<Row>, NoMemory>
    ensures { IfOk result (λ rows. rows ≡ map (λ r. r.row) ranked.items) }
{
    let mut rows = List::with_capacity(alloc, ranked.len())?;
    for TwoRanks { row, .. } in ranked {
        rows.push(row)?;
    }
    Ok(rows)
}

/// Whether rows of these ranks have one key, because both ranks are decided or there is one column.
fn are_decided(scales: Scales, key: &[u32], first: u64, second: u64) -> bool
    ensures { result ≡ are_decided scales key.now first second }
{
    match key.len() {
        0 => true,
        1 => is_decided(scales.first, first),
        2 => is_decided(scales.first, first) && is_decided(scales.second, second),
        _ => false,
    }
}

/// By the ranks, and by the whole key only where these tie and leave it open.
fn compare_ranked(scales: Scales, key: &[u32], a: &TwoRanks, b: &TwoRanks) -> Ordering
    ensures { result ≡ ranked_cmp scales key.now a.now b.now }
{
    match a.first.cmp(&b.first) {
        Ordering::Equal => match a.second.cmp(&b.second) {
            Ordering::Equal => compare_tied(scales, key, a, b),
            order => order,
        },
        order => order,
    }
}

fn compare_tied(scales: Scales, key: &[u32], a: &TwoRanks, b: &TwoRanks) -> Ordering
    requires first { a.now.first ≡ b.now.first }
    requires second { a.now.second ≡ b.now.second }
    ensures { result ≡ values_cmp (key_left scales key.now a.now) (key_left scales key.now b.now) }
{
    if are_decided(scales, key, a.first, a.second) {
        Ordering::Equal
    } else {
        compare_rows(key, &a.row, &b.row)
    }
}
