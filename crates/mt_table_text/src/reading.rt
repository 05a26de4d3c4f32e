//! Reading a table text.

ghost use Rattle.std.specs.Prelude.{◌≡◌, IfOk, Result};
ghost use Rattle.mt_table.specs.declared.definition.Table.{Table};
ghost use Rattle.mt_table_text.specs.declared.why.TableWhy.{TableWhy};
ghost use Rattle.mt_table_text.specs.Tables.{Defines, GivesTable};
ghost use Rattle.mt_table_text.specs.TextReading.{table_reading};

use crate::judge::judge;
use crate::why::{TableError, TableWhy};
use mt_phrases::SyntaxError;
use mt_syntax::read_table_text;
use mt_table::Table;
use std::alloc::Global;

/// The table that a text defines (docs/LANGUAGE.md, "Table text"; ClickHouse: `ParserCreateTableQuery`,
/// `MergeTreeData::checkProperties`).
///
/// # Errors
/// `Bad` with the first rule that the text breaks, in the order of `TableWhy`.
pub fn read_table(alloc: Global, text: &[u8]) -> Result<Table, TableError>
    ensures found { IfOk result (λ table. Defines text.now (Ok table)) }
    ensures bad { (why : TableWhy) → result ≡ Err (TableError.Bad why) → Defines text.now (Err why) }
    ensures only { (answer : Result Table TableWhy) → Defines text.now answer → GivesTable result answer }

    // The same by the function that reads texts.
    ensures reads { GivesTable result (table_reading text.now) }
{
    match read_table_text(alloc, text) {
        Ok(sentence) => judge(alloc, &sentence),
        Err(SyntaxError::Bad) => Err(TableError::Bad(TableWhy::Syntax)),
        Err(SyntaxError::NoMemory) => Err(TableError::NoMemory),
    }
}
