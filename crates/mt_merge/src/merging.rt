//! Inputs one after another, sorted.

ghost use Rattle.std.specs.Prelude.{◌≡◌, flat_map, IfOk};
ghost use Rattle.mt_defs.specs.Sorting.{merged_rows};

use mt_sort::sort_rows;
use mt_table::Table;
use mt_types::{List, NoMemory, Row};
use std::alloc::Global;

/// All rows in the order of the table's sort key, rows of equal key by the earlier input and then in
/// the order that they had. No row is copied. On `NoMemory` the inputs are dropped.
///
/// Inputs that are in key order each cost merges alone: the sort finds them as its runs.
pub fn merge_rows(
    alloc: Global,
    table: &Table,
    inputs: List<List<Row>>,
) -> Result<List<Row>, NoMemory>
    ensures { IfOk result (λ merged. merged ≡ merged_rows table.now.sort inputs) }
{
    let rows = all_rows(alloc, inputs)?;
    sort_rows(alloc, table, rows)
}

/// The rows of all inputs, one input after another.
fn all_rows(alloc: Global, inputs: List<List<Row>>) -> Result<List<Row>, NoMemory>
    ensures { IfOk result (λ rows. rows ≡ flat_map (λ input. input) inputs) }
{
    let mut rows = Vec::with_capacity(alloc, row_count(inputs.as_slice()))?;
    for input in inputs.into_vec() {
        rows.append(&mut input.into_vec())?;
    }
    Ok(List::of(rows))
}

/// How many rows the inputs have, for the room of all.
fn row_count(inputs: &[List<Row>]) -> usize {
    let mut count = 0usize;
    for input in inputs {
        count = count.saturating_add(input.len());
    }
    count
}
