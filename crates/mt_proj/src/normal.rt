//! Normal projections: some columns of all rows, in an order of their own.

ghost use Rattle.std.specs.Prelude.{◌≡◌, ◌↔◌, ◌==◌, ℕ, List, map, IfOk, IsTrue, IsPermutation};
ghost use Rattle.std.specs.List.{list_any};
ghost use Rattle.std.specs.Ordering.{is_eq};
ghost use Rattle.std.specs.Cmp.Lexicographic.{slice_cmp};
ghost use Rattle.mt_types.specs.Order.{values_cmp};
ghost use Rattle.mt_table.specs.declared.projection.Projection.TheVariants.{Normal};
ghost use Rattle.mt_defs.specs.Rows.{key_of};
ghost use Rattle.mt_defs.specs.Projections as defined;
ghost use Rattle.mt_defs.specs.Writer.{projection_rows};
ghost use Rattle.mt_sort.specs.References.{rows_in};
ghost use Rattle.mt_proj.specs.Keys.{columns_below};

use crate::column::{compare_with, copy_cells};
use crate::key::Key;
use crate::sorting::{sort_rows, sorted_refs};
use mt_table::Table;
use mt_types::{List, NoMemory, Row};
use std::alloc::Global;
use std::cmp::Ordering;

/// The columns of each row, in the order of the projection's sort key.
pub fn project_normal(
    alloc: Global,
    table: &Table,
    columns: &[u32],
    sort: &[u32],
    rows: &[Row],
) -> Result<List<Row>, NoMemory>
    ensures { (name : List ℕ) → IfOk result (λ made. made
        ≡ projection_rows table.now (Normal name columns.now sort.now) rows.now) }
{
    let stored = stored_columns(alloc, table.columns.len(), columns)?;
    let key = places_in(alloc, stored.as_slice(), sort)?;
    let made = select_cells(alloc, stored.as_slice(), rows)?;
    sort_rows(key.as_slice(), made)
}

/// Each row's values of some columns.
fn select_cells(alloc: Global, columns: &[usize], rows: &[Row]) -> Result<Vec<Row>, NoMemory>
    ensures { IfOk result (λ made. made.items ≡ map (key_of columns.now) rows.now) }
{
    let mut made = Vec::with_capacity(alloc, rows.len())?;
    for row in rows {
        made.push(copy_cells(alloc, columns, row)?)?;
    }
    Ok(made)
}

/// Whether the stored rows are the columns of each row, in some order: both are sorted and compared.
pub fn stands_normal(
    alloc: Global,
    table: &Table,
    columns: &[u32],
    rows: &[Row],
    stored: &[Row],
) -> Result<bool, NoMemory>
    ensures { IfOk result (λ stands. IsTrue stands ↔ IsPermutation
        (map (key_of (defined.stored_columns table.now columns.now)) rows.now) stored.now) }
{
    let selected = stored_columns(alloc, table.columns.len(), columns)?;
    let columns = selected.as_slice();
    let wanted = sorted_refs(alloc, &Key::Cells(columns), rows)?;
    let found = sorted_refs(alloc, &Key::Whole, stored)?;
    Ok(are_cells(columns, wanted.as_slice(), found.as_slice()))
}

/// Whether each row has these values of the columns, row by row.
fn are_cells(columns: &[usize], rows: &[&Row], values: &[&Row]) -> bool
    ensures { result ≡ is_eq (slice_cmp values_cmp
        (map (key_of columns.now) (rows_in rows.now)) (rows_in values.now)) }
{
    for (i, row) in rows.iter().enumerate() {
        if i >= values.len() {
            return false;
        }
        if compare_with(columns, row, values[i].as_slice()) != Ordering::Equal {
            return false;
        }
    }
    rows.len() >= values.len()
}

/// The columns that the projection stores, in the order of the table, which has this many.
fn stored_columns(alloc: Global, count: usize, columns: &[u32]) -> Result<List<usize>, NoMemory>
    ensures { IfOk result (λ stored. stored ≡ columns_below count columns.now) }
{
    let mut stored = Vec::with_capacity(alloc, columns.len())?;
    for column in 0..count {
        if is_among(columns, column) {
            stored.push(column)?;
        }
    }
    Ok(List::of(stored))
}

fn is_among(columns: &[u32], column: usize) -> bool
    ensures { result ≡ list_any (λ other. other == column) columns.now }
{
    columns.iter().any(|other| *other as usize == column)
}

/// Where each column stands among the stored ones.
fn places_in(alloc: Global, stored: &[usize], columns: &[u32]) -> Result<Vec<usize>, NoMemory>
    ensures { IfOk result (λ places. places.items
        ≡ map (defined.index_in stored.now) columns.now) }
{
    let mut places = Vec::with_capacity(alloc, columns.len())?;
    for column in columns {
        places.push(index_in(stored, *column as usize))?;
    }
    Ok(places)
}

/// Where a column stands among some columns; their number where it isn't among them.
fn index_in(columns: &[usize], column: usize) -> usize
    ensures { result ≡ defined.index_in columns.now column }
{
    for (place, other) in columns.iter().enumerate() {
        if *other == column {
            return place;
        }
    }
    columns.len()
}
