//! The command `select`.

ghost use Rattle.std.specs.Prelude.{◌≡◌, IfSome, IsTrue};
ghost use Rattle.mt_shelf.specs.Paths.{is_path};
ghost use Rattle.mt_shelf.specs.State.{files_of};
ghost use Rattle.mt_command.specs.Commands.{PrintsTextOf};
ghost use Rattle.mt_command.specs.Outcomes.{ReturnsOutcome};
ghost use Rattle.mt_command.specs.Plans.{world};
ghost use Rattle.mt_command.specs.Steps.{StepCausedBy, of_shelf};
ghost use Rattle.mt_select.specs.Select.{answer_steps, select_steps};

use crate::query::read_query;
use mt_command::{Status, accept_part, finished, print, read_table};
use mt_exec::select_rows;
use mt_query::Query;
use mt_shelf::{Shelf, Sink, Source};
use mt_table::Table;
use mt_types::List;
use std::alloc::Global;

/// The text of a query's answer over the rows of a part.
fn answer_of<F: Shelf>(
    alloc: Global,
    shelf: &mut F,
    table: &Table,
    query: &Query,
    part: &str,
) -> Result<List<u8>, Status>
    requires { IsTrue (is_path part.now) }
    ensures gives { IfSome (files_of (F.state shelf.old))
        (λ files. ReturnsOutcome result (answer_steps table.now query.now part.now files)) }
    ensures files { files_of (F.state shelf.new) ≡ files_of (F.state shelf.old) }
    ensures cause { StepCausedBy result (of_shelf (F.faults shelf.old)) (of_shelf (F.faults shelf.new)) }
{
    let accepted = match accept_part(alloc, shelf, table, part) {
        Ok(accepted) => accepted,
        Err(status) => return Err(status),
    };
    match select_rows(alloc, table, query, accepted.rows.as_slice()) {
        Ok(text) => Ok(text),
        Err(_) => Err(Status::NoMemory),
    }
}

/// What `select` prints, or its refusal.
fn select_text<F: Shelf>(
    alloc: Global,
    shelf: &mut F,
    path: &str,
    part: &str,
    query: &str,
) -> Result<List<u8>, Status>
    requires path { IsTrue (is_path path.now) }
    requires part { IsTrue (is_path part.now) }
    ensures gives { IfSome (files_of (F.state shelf.old))
        (λ files. ReturnsOutcome result (select_steps path.now part.now query.now files)) }
    ensures files { files_of (F.state shelf.new) ≡ files_of (F.state shelf.old) }
    ensures cause { StepCausedBy result (of_shelf (F.faults shelf.old)) (of_shelf (F.faults shelf.new)) }
{
    let table = match read_table(alloc, shelf, path) {
        Ok(table) => table,
        Err(status) => return Err(status),
    };
    let query = match read_query(alloc, &table, query) {
        Ok(query) => query,
        Err(status) => return Err(status),
    };
    answer_of(alloc, shelf, &table, &query, part)
}

/// The command `select`: prints the answer of a query over the rows of a part.
pub fn select<S: Source, K: Sink, F: Shelf>(
    alloc: Global,
    path: &str,
    part: &str,
    query: &str,
    _input: &mut S,
    output: &mut K,
    shelf: &mut F,
) -> Status
    requires path { IsTrue (is_path path.now) }
    requires part { IsTrue (is_path part.now) }
    ensures { PrintsTextOf (select_steps path.now part.now query.now)
        (world (S.left _input.old) (K.written output.old) (files_of (F.state shelf.old))
        (S.faults _input.old) (K.faults output.old) (F.faults shelf.old))
        (world (S.left _input.new) (K.written output.new) (files_of (F.state shelf.new))
        (S.faults _input.new) (K.faults output.new) (F.faults shelf.new)) result }
{
    match select_text(alloc, shelf, path, part, query) {
        Ok(text) => finished(print(output, text.as_slice())),
        Err(status) => status,
    }
}
