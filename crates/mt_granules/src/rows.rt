//! Rows made of columns.

ghost use Rattle.std.specs.Prelude.{◌≡◌, ◌+◌, ◌≤◌, ◌++◌, [], ◌∷◌, length, take, drop, sum, IfOk, OnOk, vec_len};
ghost use Rattle.mt_granules.specs.ColumnRows.{all_values, rows_of, with_column};

use mt_types::{List, NoMemory, Row, Value};
use std::alloc::Global;

/// The rows of a first column's values, so many, with room for so many values in each. They are made of values
/// that were read: a count that a file claims takes no memory before.
pub fn first_rows(
    alloc: Global,
    values: List<List<Value>>,
    count: u64,
    width: usize,
) -> Result<Vec<Row>, NoMemory>
    requires many { length (all_values values) ≡ count }
    ensures { IfOk result (λ rows. rows.items ≡ rows_of count (all_values values ∷ [])) }
{
    let mut rows = empty_rows(alloc, count, width)?;
    append_column(values, &mut rows)?;
    Ok(rows)
}

/// So many rows that have no value yet, with room for so many.
fn empty_rows(alloc: Global, count: u64, width: usize) -> Result<Vec<Row>, NoMemory>
    ensures { IfOk result (λ rows. rows.items ≡ rows_of count []) }
{
    let mut rows = Vec::with_capacity(alloc, count as usize)?;
    for _ in 0..count {
        rows.push(List::with_capacity(alloc, width)?)?;
    }
    Ok(rows)
}

/// Appends a column's values to the rows, granule by granule. No value is copied. Where memory is refused some
/// of the rows have their value, and what was given is dropped.
pub fn append_column(values: List<List<Value>>, rows: &mut Vec<Row>) -> Result<(), NoMemory>
    requires { length (all_values values) ≤ vec_len rows.old }
    ensures { OnOk result (rows.new.items ≡ with_column rows.old.items (all_values values)) }
{
    let mut first = 0;
    for granule in values.into_vec() {
        let count = granule.len();
        append_values(granule, first, rows)?;
        first += count;
    }
    Ok(())
}

/// Appends values to rows, the first of them to the row of this index.
fn append_values(values: List<Value>, first: usize, rows: &mut Vec<Row>) -> Result<(), NoMemory>
    requires { first + length values ≤ vec_len rows.old }
    ensures { OnOk result (rows.new.items
        ≡ take first rows.old.items ++ with_column (drop first rows.old.items) values) }
{
    let mut row = first;
    for value in values.into_vec() {
        rows[row].push(value)?;
        row += 1;
    }
    Ok(())
}

/// How many rows granules have.
pub(crate) fn sum_of(granules: &[u64]) -> u128
    ensures { result ≡ sum granules.now }
{
    let mut total: u128 = 0;
    for rows in granules {
        total += u128::from(*rows);
    }
    total
}
