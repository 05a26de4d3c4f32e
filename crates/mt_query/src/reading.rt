//! Reading a query text.

ghost use Rattle.std.specs.Prelude.{◌≡◌, IfOk, IsTrue, Result, Ok, Err};
ghost use Rattle.mt_query.specs.declared.query.Query.{Query};
ghost use Rattle.mt_query.specs.declared.why.QueryWhy.{QueryWhy};
ghost use Rattle.mt_query.specs.declared.why.QueryError.TheVariants as error;
ghost use Rattle.mt_table.specs.Kept.{is_place};
ghost use Rattle.mt_query.specs.Named.{query_passes};
ghost use Rattle.mt_query.specs.Queries.{Asks, GivesQuery};
ghost use Rattle.mt_query.specs.Suits.{given_cond_suits};

use crate::columns::Columns;
use crate::limits::MAX_QUERY_TEXT;
use crate::query::Query;
use crate::why::{QueryError, QueryWhy};
use mt_phrases::SyntaxError;
use mt_query_syntax::read_query_text;
use mt_table::Table;
use std::alloc::Global;

impl Query {
    /// The query that a text is over a table (docs/LANGUAGE.md, "Queries"; ClickHouse: `ParserSelectQuery`,
    /// `InterpreterSelectQuery`).
    ///
    /// # Errors
    /// `Bad` with the first rule that the text breaks, in the order of `QueryWhy`.
    pub fn read(alloc: Global, text: &[u8], table: &Table) -> Result<Query, QueryError>
        ensures found { IfOk result (λ query. Asks text.now table.now (Ok query)) }
        ensures bad { (why : QueryWhy) → result ≡ Err (error.Bad why) → Asks text.now table.now (Err why) }
        ensures only { (answer : Result Query QueryWhy) → Asks text.now table.now answer → GivesQuery result answer }

        // Every column that the query names is one of the table's, and every literal suits its column.
        ensures within { IfOk result (λ query. IsTrue (query_passes (is_place table.now.columns) query)) }
        ensures suits { IfOk result (λ query. IsTrue (given_cond_suits table.now.columns query.cond)) }
    {
        if text.len() > MAX_QUERY_TEXT {
            return Err(QueryError::Bad(QueryWhy::TooMany));
        }
        match read_query_text(alloc, text) {
            Ok(sentence) => Columns::of(table).judge(alloc, &sentence),
            Err(SyntaxError::Bad) => Err(QueryError::Bad(QueryWhy::Syntax)),
            Err(SyntaxError::NoMemory) => Err(QueryError::NoMemory),
        }
    }
}
