//! Answers that have gathered some rows.

ghost use Rattle.std.specs.Prelude.{◌≡◌, ◌<◌, [], ◌∷◌, ◌++◌, length, All, IsTrue, IfOk, List};
ghost use Rattle.mt_defs.specs.Rows as defined;
ghost use Rattle.mt_look.specs.Seen.{row_by_index};
ghost use Rattle.mt_fold.specs.Answer.{answer_rows, answer_text};
ghost use Rattle.mt_query.specs.Named.{query_passes};
ghost use Rattle.mt_fold.specs.Gathered.{Gathers, Suits};

use crate::aggregate::{is_grouped, is_one_group};
use crate::answer::{first_rows, rows_of_groups, text_of};
use crate::condition::keeps;
use crate::group::add_to_group;
use crate::item::item_columns;
use crate::row::{key_of, plain_row};
use crate::state::empty_states;
use indexmap::IndexMap;
use mt_look::Look;
use mt_query::Query;
use mt_table::Table;
use mt_types::{AggState, List, NoMemory, Row};
use std::alloc::Global;

/// What a query's answer needs of the rows gathered so far.
#[derive(Drop)]
pub struct Partial {
    /// The result rows, where the answer isn't by groups.
    pub rows: List<Row>,
    /// The groups, by the values of the GROUP BY columns: a state per aggregate, in the query's order.
    pub groups: IndexMap<Row, List<AggState>>,
}

impl Partial {
    /// Nothing gathered yet.
    pub fn new(alloc: Global, query: &Query) -> Result<Partial, NoMemory>
        ensures suits { IfOk result (λ made. Suits made query.now) }
        ensures gathers { IfOk result (λ made. Gathers made query.now []) }
    {
        let mut groups = IndexMap::new(alloc);
        if is_one_group(query) {
            let states = empty_states(alloc, query.items.as_slice())?;
            groups.insert(List::new(alloc), states)?;
        }
        Ok(Partial {
            rows: List::new(alloc),
            groups,
        })
    }

    /// Gathers one row more. On `NoMemory` what was gathered is given up.
    pub fn add<L: Look>(
        self,
        alloc: Global,
        query: &Query,
        from: &L,
        row: u64,
    ) -> Result<Partial, NoMemory>
        requires suits { Suits self query.now }
        requires shown { IsTrue (query_passes (L.shows from.now) query.now) }
        requires there { row < length (L.rows_of from.now) }
        ensures suits { IfOk result (λ made. Suits made query.now) }
        ensures gathers { (rows : List defined.Row) → Gathers self query.now rows
            → IfOk result (λ made. Gathers made query.now
            (rows ++ row_by_index (L.rows_of from.now) row ∷ [])) }
    {
        if !keeps(&query.cond, from, row) {
            return Ok(self);
        }
        let Partial { mut rows, groups } = self;
        if is_grouped(query) {
            let key = key_of(alloc, query.keys.as_slice(), from, row)?;
            let groups = add_to_group(alloc, query.items.as_slice(), groups, key, from, row)?;
            Ok(Partial { rows, groups })
        } else {
            rows.push(plain_row(alloc, query.items.as_slice(), from, row)?)?;
            Ok(Partial { rows, groups })
        }
    }

    /// The rows of the answer.
    fn answer(self, alloc: Global, table: &Table, query: &Query) -> Result<Vec<Row>, NoMemory>
        requires suits { Suits self query.now }
        ensures whole { IfOk result (λ made.
            All (λ (row : defined.Row). length row ≡ length query.now.items) made.items) }
        ensures rows { (rows : List defined.Row) → Gathers self query.now rows
            → IfOk result (λ made. made.items ≡ answer_rows table.now query.now rows) }
    {
        let Partial { rows, groups } = self;
        if is_grouped(query) {
            first_rows(rows_of_groups(alloc, table, query, groups)?, query.limit)
        } else {
            first_rows(rows.into_vec(), query.limit)
        }
    }

    /// The text of the query's answer over the rows that were gathered.
    pub fn text(self, alloc: Global, table: &Table, query: &Query) -> Result<List<u8>, NoMemory>
        requires suits { Suits self query.now }
        ensures { (rows : List defined.Row) → Gathers self query.now rows
            → IfOk result (λ text. text ≡ answer_text table.now query.now rows) }
    {
        let rows = self.answer(alloc, table, query)?;
        let columns = item_columns(alloc, table, query.items.as_slice())?;
        text_of(alloc, columns.as_slice(), rows.as_slice())
    }
}
