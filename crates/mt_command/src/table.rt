//! The step that reads the table, which almost every command begins with.
ghost use Rattle.std.specs.Prelude.{◌≡◌, IfSome, IsTrue};
ghost use Rattle.std.specs.FinMap.{get};
ghost use Rattle.mt_shelf.specs.Paths.{is_path};
ghost use Rattle.mt_shelf.specs.State.{files_of};
ghost use Rattle.mt_command.specs.Status.{GivesOutcome};
ghost use Rattle.mt_command.specs.Steps.{StepCausedBy, of_nothing, of_shelf};
ghost use Rattle.mt_command.specs.Tables.{table_in, table_of, table_text};

use crate::limits::MAX_TABLE_TEXT;
use crate::status::{Status, What, status_of_shelf};
use mt_shelf::{Shelf, read_file};
use mt_table::Table;
use mt_table_text::TableError;
use mt_types::List;
use std::alloc::Global;

/// Reads the text of a table's file.
fn read_text<F: Shelf>(alloc: Global, shelf: &mut F, path: &str) -> Result<List<u8>, Status>
    requires { IsTrue (is_path path.now) }
    ensures gives { IfSome (files_of (F.state shelf.old))
        (λ files. GivesOutcome result (table_text (get files path.now))) }
    ensures files { files_of (F.state shelf.new) ≡ files_of (F.state shelf.old) }
    ensures cause { StepCausedBy result (of_shelf (F.faults shelf.old)) (of_shelf (F.faults shelf.new)) }
{
    let size = match shelf.size(path) {
        Ok(Some(size)) => size,
        Ok(None) => return Err(Status::NoTable),
        Err(error) => return Err(status_of_shelf(error)),
    };
    if size > MAX_TABLE_TEXT {
        return Err(Status::TooMuch {
            what: What::Table,
            limit: MAX_TABLE_TEXT,
        });
    }
    match read_file(alloc, shelf, path, size) {
        Ok(text) => Ok(text),
        Err(error) => Err(status_of_shelf(error)),
    }
}

/// The table of a text.
#[tactic(auto, unfolding(crate::specs::Tables::table_of))]
fn table_of(alloc: Global, text: &[u8]) -> Result<Table, Status>
    ensures gives { GivesOutcome result (table_of text.now) }
    ensures cause { StepCausedBy result of_nothing of_nothing }
{
    match mt_table_text::read_table(alloc, text) {
        Ok(table) => Ok(table),
        Err(TableError::Bad(why)) => Err(Status::BadTable(why)),
        Err(TableError::NoMemory) => Err(Status::NoMemory),
    }
}

/// Reads the table of a file.
pub fn read_table<F: Shelf>(alloc: Global, shelf: &mut F, path: &str) -> Result<Table, Status>
    requires { IsTrue (is_path path.now) }
    ensures gives { IfSome (files_of (F.state shelf.old)) (λ files. GivesOutcome result (table_in path.now files)) }
    ensures files { files_of (F.state shelf.new) ≡ files_of (F.state shelf.old) }
    ensures cause { StepCausedBy result (of_shelf (F.faults shelf.old)) (of_shelf (F.faults shelf.new)) }
{
    let text = read_text(alloc, shelf, path)?;
    table_of(alloc, text.as_slice())
}
