//! The rules behind the grammar, in order, and the query of a sentence that keeps them.

ghost use Rattle.mt_query.specs.Queries.{GivesQuery};
ghost use Rattle.mt_query.specs.Rules.{judged_query, judged_items};

use crate::columns::Columns;
use crate::group::are_grouped;
use crate::query::{Item, Query};
use crate::why::{QueryError, QueryWhy};
use mt_query_syntax::QueryText;
use mt_types::List;
use std::alloc::Global;

impl<'c> Columns<'c> {
    /// The query of a sentence's items and keys, or the first rule that it breaks, from NotGrouped on.
    #[tactic(auto, unfolding(crate::specs::Rules::judged_items))]
    fn judge_items(
        &self,
        alloc: Global,
        text: &QueryText,
        items: List<Item>,
        keys: List<u32>,
    ) -> Result<Query, QueryError>
        ensures { GivesQuery result (judged_items self.now.list.now text.now items keys) }
    {
        if !are_grouped(alloc, items.as_slice(), keys.as_slice())? {
            return Err(QueryError::Bad(QueryWhy::NotGrouped));
        }
        let Some(cond) = self.given_cond(alloc, &text.cond)? else {
            return Err(QueryError::Bad(QueryWhy::BadLiteral));
        };
        if !self.are_over(items.as_slice()) {
            return Err(QueryError::Bad(QueryWhy::BadAggregate));
        }
        Ok(Query {
            items,
            cond,
            keys,
            limit: text.limit,
        })
    }

    /// The query of a sentence, or the first rule that it breaks.
    #[tactic(auto, unfolding(crate::specs::Rules::judged_query))]
    pub(crate) fn judge(&self, alloc: Global, text: &QueryText) -> Result<Query, QueryError>
        ensures { GivesQuery result (judged_query self.now.list.now text.now) }
    {
        let Some(items) = self.items(alloc, &text.items)? else {
            return Err(QueryError::Bad(QueryWhy::NoSuchColumn));
        };
        let Some(keys) = self.places(alloc, text.group.as_slice())? else {
            return Err(QueryError::Bad(QueryWhy::NoSuchColumn));
        };
        if !self.has_given(&text.cond) {
            return Err(QueryError::Bad(QueryWhy::NoSuchColumn));
        }
        self.judge_items(alloc, text, items, keys)
    }
}
