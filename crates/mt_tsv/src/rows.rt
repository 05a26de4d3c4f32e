//! Lines as rows.

ghost use Rattle.std.specs.Prelude.{◌≡◌, ◌≢◌, ◌≤◌, [], length, All, IfOk};
ghost use Rattle.mt_table.specs.Rows.{RowFits, cell_count};
ghost use Rattle.mt_table.specs.declared.limits.TheConstants.{MAX_ROWS, MAX_CELLS};
ghost use Rattle.mt_tsv.specs.Results.{GivesRows};
ghost use Rattle.mt_tsv.specs.Reading.{error_at, rows_reading};

use crate::ascii::LINE_END;
use crate::cells::room_after;
use crate::fault::{FieldError, RowError, RowWhy};
use crate::line::read_row;
use crate::split::cut;
use mt_table::{MAX_CELLS, MAX_ROWS, Table};
use mt_types::{List, Row};
use std::alloc::Global;

fn at_line(line: u64, error: FieldError) -> RowError
    ensures { result ≡ error_at line error }
{
    match error {
        FieldError::Bad(why) => RowError::At { line, why },
        FieldError::NoMemory => RowError::NoMemory,
    }
}

/// The rows of a text (docs/LANGUAGE.md, "Lines"; ClickHouse: `TabSeparated`, with fewer escapes).
///
/// Whichever line is out of form or passes a limit first decides; of one line its form comes before
/// `Rows`, and `Rows` before `Cells`.
pub fn read_rows(alloc: Global, table: &Table, text: &[u8]) -> Result<List<Row>, RowError>
    ensures reads { GivesRows result (rows_reading table.now.columns text.now) }
    ensures fit { IfOk result (λ rows. All (RowFits table.now.columns) rows) }
    ensures few_rows { IfOk result (λ rows. length rows ≤ MAX_ROWS) }
    ensures few_cells { IfOk result (λ rows. cell_count table.now.columns rows ≤ MAX_CELLS) }
    ensures some { IfOk result (λ rows. text.now ≢ [] → rows ≢ []) }
{
    let columns = table.columns.as_slice();
    let mut rows = List::new(alloc);
    let mut room = MAX_CELLS;
    let mut rest = text;
    'lines: loop {
        let line_number = rows.len() as u64 + 1;
        let (line, after) = cut(rest, LINE_END);
        let Some(after) = after else {
            if line.is_empty() {
                return Ok(rows);
            }
            let why = RowWhy::NoLineEnd;
            return Err(RowError::At {
                line: line_number,
                why,
            });
        };
        let row = match read_row(alloc, columns, line) {
            Ok(row) => row,
            Err(error) => return Err(at_line(line_number, error)),
        };
        if rows.len() >= MAX_ROWS {
            return Err(RowError::Rows);
        }
        let Some(left) = room_after(row.as_slice(), room) else {
            return Err(RowError::Cells);
        };
        rows.push(row)?;
        room = left;
        rest = after;
    }
}
