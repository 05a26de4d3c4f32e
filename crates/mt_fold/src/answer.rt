//! Result rows in order, within the LIMIT, as lines.

ghost use Rattle.std.specs.Prelude.{◌≡◌, ℕ, map, length, All, IfOk};
ghost use Rattle.mt_defs.specs.Rows as defined;
ghost use Rattle.mt_tsv.specs.Printing.{rows_text};
ghost use Rattle.mt_fold.specs.Answer as answer;
ghost use Rattle.mt_fold.specs.Gathered.{Group};
ghost use Rattle.mt_fold.specs.Steps as steps;

use crate::row::row_of_states;
use indexmap::IndexMap;
use mt_query::Query;
use mt_table::{Column, Table};
use mt_tsv::write_row;
use mt_types::{AggState, List, NoMemory, Row, compare_items};
use std::alloc::Global;

/// The rows by all items ascending.
fn put_in_order(mut rows: Vec<Row>) -> Result<Vec<Row>, NoMemory>
    ensures { IfOk result (λ made. made.items ≡ answer.ordered rows.items) }
{
    rows.sort_by(|a, b| compare_items(a.as_slice(), b.as_slice()))?;
    Ok(rows)
}

/// The first rows, so many.
fn limit_to(mut rows: Vec<Row>, limit: Option<u64>) -> Vec<Row>
    ensures { result.items ≡ answer.limited limit rows.items }
{
    match limit {
        None => rows,
        Some(limit) => {
            rows.truncate(limit as usize);
            rows
        }
    }
}

/// The first rows in the order of an answer. No row is copied.
pub fn first_rows(rows: Vec<Row>, limit: Option<u64>) -> Result<Vec<Row>, NoMemory>
    ensures first { IfOk result (λ made. made.items ≡ answer.limited limit (answer.ordered rows.items)) }
    ensures whole { (size : ℕ) → All (λ (row : defined.Row). length row ≡ size) rows.items
        → IfOk result (λ made. All (λ (row : defined.Row). length row ≡ size) made.items) }
{
    Ok(limit_to(put_in_order(rows)?, limit))
}

/// The result rows of groups.
pub fn rows_of_groups(
    alloc: Global,
    table: &Table,
    query: &Query,
    groups: IndexMap<Row, List<AggState>>,
) -> Result<Vec<Row>, NoMemory>
    ensures made { IfOk result (λ made. made.items ≡ map (λ (group : Group).
        steps.row_of_states table.now query.now.keys group.0 query.now.items group.1) groups.entries) }
    ensures whole { IfOk result (λ made.
        All (λ (row : defined.Row). length row ≡ length query.now.items) made.items) }
{
    let mut rows = Vec::with_capacity(alloc, groups.len())?;
    for (key, states) in groups {
        rows.push(row_of_states(
            alloc,
            table,
            query.keys.as_slice(),
            key.as_slice(),
            query.items.as_slice(),
            states.as_slice(),
        )?)?;
    }
    Ok(rows)
}

/// The lines of rows.
pub fn text_of(alloc: Global, columns: &[Column], rows: &[Row]) -> Result<List<u8>, NoMemory>
    requires { All (λ (row : defined.Row). length row ≡ length columns.now) rows.now }
    ensures { IfOk result (λ text. text ≡ rows_text columns.now rows.now) }
{
    let mut text = List::new(alloc);
    for row in rows {
        write_row(alloc, columns, row, &mut text)?;
    }
    Ok(text)
}
