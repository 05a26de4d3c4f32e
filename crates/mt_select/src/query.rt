//! The step that reads a query over a table.

ghost use Rattle.mt_command.specs.Outcomes.{ReturnsOutcome};
ghost use Rattle.mt_command.specs.Steps.{StepCausedBy, of_nothing};
ghost use Rattle.mt_select.specs.Select.{query_asked};

use mt_command::Status;
use mt_query::{Query, QueryError};
use mt_table::Table;
use std::alloc::Global;

/// The query that a text is over a table.
///
/// # Errors
/// `BadQuery` with the first rule that the text breaks; `NoMemory`.
pub fn read_query(alloc: Global, table: &Table, text: &str) -> Result<Query, Status>
    ensures gives { ReturnsOutcome result (query_asked table.now text.now) }
    ensures cause { StepCausedBy result of_nothing of_nothing }
{
    match Query::read(alloc, text.as_bytes(), table) {
        Ok(query) => Ok(query),
        Err(QueryError::Bad(why)) => Err(Status::BadQuery(why)),
        Err(QueryError::NoMemory) => Err(Status::NoMemory),
    }
}
