//! Laws of queries, for every text and table.

ghost use Rattle.std.specs.Prelude.{◌≡◌, ℕ, List, Result};
ghost use Rattle.mt_table.specs.declared.definition.Table.{Table};
ghost use Rattle.mt_query.specs.declared.query.Query.{Query};
ghost use Rattle.mt_query.specs.declared.why.QueryWhy.{QueryWhy};
ghost use Rattle.mt_query.specs.Queries.{Asks};

/// A text asks one thing of a table: one query, or one rule is the first that it breaks.
pub fn a_text_asks_one_thing()
    ensures { (text : List ℕ) (table : Table) (a b : Result Query QueryWhy)
        → Asks text table a → Asks text table b → a ≡ b }
{}
