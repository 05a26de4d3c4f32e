//! Rows in the order of a key, rows of equal key in their former order.

ghost use Rattle.std.specs.Prelude.{◌≡◌, map, IfOk};
ghost use Rattle.mt_defs.specs.Sorting.{sorted_by, sorted_rows};
ghost use Rattle.mt_types.specs.Order.{values_cmp};
ghost use Rattle.mt_sort.specs.References.{rows_in};
ghost use Rattle.mt_proj.specs.Keys.{key_in};

use crate::column::compare_cells;
use crate::key::{Key, compare_keys};
use mt_types::{List, NoMemory, Row};
use std::alloc::Global;

/// The rows in the order of some columns. No row is copied. On `NoMemory` the rows are dropped.
pub fn sort_rows(columns: &[usize], mut rows: Vec<Row>) -> Result<List<Row>, NoMemory>
    ensures { IfOk result (λ sorted. sorted ≡ sorted_rows columns.now rows.items) }
{
    rows.sort_by(|a, b| compare_cells(columns, a, b))?;
    Ok(List::of(rows))
}

/// The rows in the order of their keys. No row is copied.
pub fn sorted_refs<'a>(alloc: Global, key: &Key, rows: &'a [Row]) -> Result<Vec<&'a Row>, NoMemory>
    ensures { IfOk result (λ sorted. rows_in sorted.items
        ≡ sorted_by (λ a b. values_cmp (key_in key.now a) (key_in key.now b)) rows.now) }
{
    let mut sorted = Vec::with_capacity(alloc, rows.len())?;
    for row in rows {
        sorted.push(row)?;
    }
    sorted.sort_by(|a, b| compare_keys(key, a, b))?;
    Ok(sorted)
}
