//! The answer of a query over rows in memory.

ghost use Rattle.std.specs.Prelude.{◌≡◌, IfOk};
ghost use Rattle.mt_fold.specs.Answer.{answer_text};

use crate::plain::plain_text;
use mt_fold::{Partial, is_grouped};
use mt_look::{Look, Rows};
use mt_query::Query;
use mt_table::Table;
use mt_types::{List, NoMemory, Row};
use std::alloc::Global;

/// The text of a query's answer over all rows (docs/LANGUAGE.md, "Queries"). It goes over the rows once, and copies none
/// that isn't printed.
pub fn select_rows(
    alloc: Global,
    table: &Table,
    query: &Query,
    rows: &[Row],
) -> Result<List<u8>, NoMemory>
    ensures { IfOk result (λ text. text ≡ answer_text table.now query.now rows.now) }
{
    if is_grouped(query) {
        grouped_text(alloc, table, query, rows)
    } else {
        plain_text(alloc, table, query, rows)
    }
}

/// The same by gathering row by row.
fn grouped_text(
    alloc: Global,
    table: &Table,
    query: &Query,
    rows: &[Row],
) -> Result<List<u8>, NoMemory>
    ensures { IfOk result (λ text. text ≡ answer_text table.now query.now rows.now) }
{
    let from = Rows { list: rows };
    let mut partial = Partial::new(alloc, query)?;
    for row in 0..from.rows() {
        partial = partial.add(alloc, query, &from, row)?;
    }
    partial.text(alloc, table, query)
}
