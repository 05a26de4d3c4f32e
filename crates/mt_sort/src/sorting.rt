//! The stable sort.

ghost use Rattle.std.specs.Prelude.{◌≡◌, IfOk};
ghost use Rattle.mt_defs.specs.Rows.{key_cmp};
ghost use Rattle.mt_defs.specs.Sorting.{sorted_rows};
ghost use Rattle.mt_sort.specs.InOrder.{is_in_order};

use crate::compare::compare_rows;
use crate::huge::any_huge;
use crate::one_rank::sort_by_one_rank;
use crate::rank::{Scale, scale_of};
use crate::two_ranks::{Scales, sort_by_two_ranks};
use mt_table::Table;
use mt_types::{List, NoMemory, Row};
use std::alloc::Global;
use std::cmp::Ordering;

/// The rows in the order of the table's sort key, rows of equal key in the order that they had. No row
/// is copied. On `NoMemory` the rows are dropped.
pub fn sort_rows(alloc: Global, table: &Table, rows: List<Row>) -> Result<List<Row>, NoMemory>
    ensures { IfOk result (λ sorted. sorted ≡ sorted_rows table.now.sort rows) }
{
    let key = table.sort.as_slice();
    if is_in_order(key, rows.as_slice()) {
        return Ok(rows);
    }
    if any_huge(key, rows.as_slice()) {
        return sort_by_values(key, rows);
    }
    let Some((column, others)) = key.split_first() else {
        return Ok(rows);
    };
    let first = scale_at(table, *column);
    let Some(other) = others.first() else {
        return sort_by_one_rank(alloc, first, *column, rows);
    };
    let second = scale_at(table, *other);
    let scales = Scales { first, second };
    sort_by_two_ranks(alloc, scales, *column, others, key, rows)
}

/// The rows in the order of a key, compared by their values alone. On `NoMemory` the rows are dropped.
fn sort_by_values(key: &[u32], rows: List<Row>) -> Result<List<Row>, NoMemory>
    ensures { IfOk result (λ sorted. sorted ≡ sorted_rows key.now rows) }
{
    let mut sorted = rows.into_vec();
    sorted.sort_by(|a, b| compare_rows(key, a, b))?;
    Ok(List::of(sorted))
}

/// The scale of a column's values.
fn scale_at(table: &Table, column: u32) -> Scale {
    match table.columns.as_slice().get(column as usize) {
        Some(column) => scale_of(&column.ty),
        None => Scale::Texts,
    }
}

/// Whether no row is above the one after it.
fn is_in_order(key: &[u32], rows: &[Row]) -> bool
    ensures { result ≡ is_in_order (key_cmp key.now) rows.now }
{
    let mut rest = rows;
    while let Some((first, after)) = rest.split_first() {
        if let Some(second) = after.first() {
            if compare_rows(key, first, second) == Ordering::Greater {
                return false;
            }
        }
        rest = after;
    }
    true
}
