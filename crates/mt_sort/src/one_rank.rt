//! Rows in the order of one column, each beside the rank of its value there.

ghost use Rattle.std.specs.Prelude.{◌≡◌, [], ◌∷◌, map, IfOk, false};
ghost use Rattle.std.specs.List.{list_any};
ghost use Rattle.mt_types.specs.Order.{values_cmp};
ghost use Rattle.mt_defs.specs.Sorting.{sorted_rows};
ghost use Rattle.mt_sort.specs.Ranks.{has_huge};
ghost use Rattle.mt_sort.specs.RankedOnce.{key_left, ranked_cmp, ranked_row};

use crate::compare::compare_rows;
use crate::rank::{Scale, column_rank, is_decided};
use mt_types::{List, NoMemory, Row};
use std::alloc::Global;
use std::cmp::Ordering;

/// A row and its rank. The rank lies in the list that is sorted, and the row's values do not.
#[derive(Drop)]
pub struct OneRank {
    /// The rank of the row's value in the column.
    pub rank: u64,
    /// The row.
    pub row: Row,
}

/// The rows in the order of a column, rows of equal value in the order that they had. No row is
/// copied. On `NoMemory` the rows are dropped.
pub fn sort_by_one_rank(
    alloc: Global,
    scale: Scale,
    column: u32,
    rows: List<Row>,
) -> Result<List<Row>, NoMemory>
    requires { list_any (has_huge (column ∷ [])) rows ≡ false }
    ensures { IfOk result (λ sorted. sorted ≡ sorted_rows (column ∷ []) rows) }
{
    let mut ranked = with_ranks(alloc, scale, column, rows)?;
    ranked.sort_by(|a, b| compare_ranked(scale, column, a, b))?;
    without_ranks(alloc, ranked)
}

/// Each row with its rank.
fn with_ranks(
    alloc: Global,
    scale: Scale,
    column: u32,
    rows: List<Row>,
) -> Result<Vec<OneRank>, NoMemory>
    ensures { IfOk result (λ made. made.items ≡ map (ranked_row scale column) rows) }
{
    let mut made = Vec::with_capacity(alloc, rows.len())?;
    for row in rows.into_vec() {
        let rank = column_rank(scale, column, &row);
        made.push(OneRank { rank, row })?;
    }
    Ok(made)
}

/// The rows without their ranks.
fn without_ranks(alloc: Global, ranked: Vec<OneRank>) -> Result<List<Row>, NoMemory>
    ensures { IfOk result (λ rows. rows ≡ map (λ r. r.row) ranked.items) }
{
    let mut rows = List::with_capacity(alloc, ranked.len())?;
    for OneRank { row, .. } in ranked {
        rows.push(row)?;
    }
    Ok(rows)
}

/// By rank, and by value only where ranks tie and leave it open.
fn compare_ranked(scale: Scale, column: u32, a: &OneRank, b: &OneRank) -> Ordering
    ensures { result ≡ ranked_cmp scale column a.now b.now }
{
    match a.rank.cmp(&b.rank) {
        Ordering::Equal => compare_tied(scale, column, a, b),
        order => order,
    }
}

fn compare_tied(scale: Scale, column: u32, a: &OneRank, b: &OneRank) -> Ordering
    requires { a.now.rank ≡ b.now.rank }
    ensures { result ≡ values_cmp (key_left scale column a.now) (key_left scale column b.now) }
{
    if is_decided(scale, a.rank) {
        Ordering::Equal
    } else {
        compare_rows(&[column], &a.row, &b.row)
    }
}
