//! What a trial prints of rows.

ghost use Rattle.std.specs.Prelude.{◌≡◌, ◌++◌, IfOk};
ghost use Rattle.mt_command.specs.Outcomes.{ReturnsOutcome};
ghost use Rattle.mt_command.specs.Steps.{StepCausedBy, of_nothing};
ghost use Rattle.mt_trial.specs.Steps.{answer_lines, answers_of};
ghost use Rattle.mt_trial.specs.Trial.{rows_line};

use itoa::Buffer;
use mt_command::Status;
use mt_exec::select_rows;
use mt_select::read_query;
use mt_table::Table;
use mt_types::{List, NoMemory, Row};
use std::alloc::Global;

/// Of all rows together.
const TOTALS: &str = "SELECT count(), sum(v), min(v), max(v) FROM part ORDER BY ALL";

/// Of the first groups.
const GROUPS: &str =
    "SELECT k, count(), sum(v) FROM part WHERE k < 30 GROUP BY k ORDER BY ALL LIMIT 3";

/// Of the first rows with a great `v`.
const GREAT: &str = "SELECT k, v FROM part WHERE v >= 900 ORDER BY ALL LIMIT 2";

/// How many rows there are, as a line.
fn count_line(alloc: Global, rows: &[Row]) -> Result<List<u8>, NoMemory>
    ensures { IfOk result (λ line. line ≡ rows_line rows.now) }
{
    let mut buffer = Buffer::new();
    let mut line = List::of_bytes(alloc, b"rows ")?;
    line.append(buffer.format(rows.len()).as_bytes())?;
    line.append(b"\n")?;
    Ok(line)
}

/// The lines of a query's answer over rows.
fn answer_of(alloc: Global, table: &Table, rows: &[Row], text: &str) -> Result<List<u8>, Status>
    ensures gives { ReturnsOutcome result (answer_lines table.now rows.now text.now) }
    ensures cause { StepCausedBy result of_nothing of_nothing }
{
    let query = match read_query(alloc, table, text) {
        Ok(query) => query,
        Err(status) => return Err(status),
    };
    match select_rows(alloc, table, &query, rows) {
        Ok(answer) => Ok(answer),
        Err(_) => Err(Status::NoMemory),
    }
}

/// The four texts one after another.
fn text_of_answers(
    alloc: Global,
    rows: &[Row],
    totals: &[u8],
    groups: &[u8],
    great: &[u8],
) -> Result<List<u8>, NoMemory>
    ensures { IfOk result (λ text. text ≡ rows_line rows.now ++ totals.now ++ groups.now ++ great.now) }
{
    let mut text = count_line(alloc, rows)?;
    text.append(totals)?;
    text.append(groups)?;
    text.append(great)?;
    Ok(text)
}

/// How many rows there are, and the answers of the three queries over them.
#[tactic(auto, unfolding(crate::specs::Queries::totals_text, crate::specs::Queries::groups_text, crate::specs::Queries::great_text))]
pub(crate) fn answers_of(alloc: Global, table: &Table, rows: &[Row]) -> Result<List<u8>, Status>
    ensures gives { ReturnsOutcome result (answers_of table.now rows.now) }
    ensures cause { StepCausedBy result of_nothing of_nothing }
{
    let totals = match answer_of(alloc, table, rows, TOTALS) {
        Ok(totals) => totals,
        Err(status) => return Err(status),
    };
    let groups = match answer_of(alloc, table, rows, GROUPS) {
        Ok(groups) => groups,
        Err(status) => return Err(status),
    };
    let great = match answer_of(alloc, table, rows, GREAT) {
        Ok(great) => great,
        Err(status) => return Err(status),
    };
    match text_of_answers(
        alloc,
        rows,
        totals.as_slice(),
        groups.as_slice(),
        great.as_slice(),
    ) {
        Ok(text) => Ok(text),
        Err(_) => Err(Status::NoMemory),
    }
}
