//! Laws of projections in answers, each the contract of a function that does nothing.

ghost use Rattle.std.specs.Prelude.{◌≡◌, ◌++◌, ℕ, List, [], false, map, IsTrue, IsPermutation};
ghost use Rattle.std.specs.List.{list_any};
ghost use Rattle.mt_table.specs.declared.projection.Aggregate.{Aggregate};
ghost use Rattle.mt_defs.specs.Projections.{FoldsRows};
ghost use Rattle.mt_defs.specs.Rows.{Row, key_of};
ghost use Rattle.mt_fold.specs.Answer.{is_grouped, keeps};
ghost use Rattle.mt_fold.specs.Gathered.{Gathers};
ghost use Rattle.mt_fold.specs.declared.partial.Partial.{Partial};
ghost use Rattle.mt_query.specs.Named.{query_passes};
ghost use Rattle.mt_query.specs.declared.query.Query.{Query};
ghost use Rattle.mt_stored.specs.Merged.{Merges};
ghost use Rattle.mt_stored.specs.Needed.{can_answer};
ghost use Rattle.mt_stored.specs.Placed.{as_row, is_stored_column};

/// Stored rows that are some columns of rows, in any order, answer a query that names no other
/// column as the rows do: what gathers them, seen as rows of the table, gathers the rows. So it is
/// with a normal projection (docs/FORMAT.md, "Projections"), and with a part's own columns in the
/// order of its files.
pub fn stored_columns_answer_for_rows()
    ensures { (places : List ℕ) (width : ℕ) (query : Query) (rows stored : List Row)
        → IsTrue (query_passes (is_stored_column places width) query)
        → IsPermutation (map (key_of places) rows) stored
        → (partial : Partial) (before : List Row)
        → Gathers partial query (before ++ map (as_row places width) stored)
        → Gathers partial query (before ++ rows) }
{}

/// Stored rows of an aggregate projection that stand for rows answer a query as the rows do, where
/// the projection has all that the query needs: what has merged them into what was gathered gathers
/// the rows too.
pub fn stored_states_answer_for_rows()
    ensures { (keys : List ℕ) (aggs : List Aggregate) (width : ℕ) (query : Query)
        (rows stored : List Row) → IsTrue (can_answer keys aggs width query)
        → FoldsRows keys aggs rows stored
        → (before made : Partial) (earlier : List Row) → Gathers before query earlier
        → Merges keys aggs width query before stored made
        → Gathers made query (earlier ++ rows) }
{}

/// What was gathered by groups has merged no stored rows.
pub fn gathered_groups_are_merged()
    ensures { (keys : List ℕ) (aggs : List Aggregate) (width : ℕ) (query : Query)
        (partial : Partial) (rows : List Row) → IsTrue (is_grouped query)
        → Gathers partial query rows → Merges keys aggs width query partial [] partial }
{}

/// Rows on which the condition isn't true need not be read: what gathers the others gathers them too.
pub fn other_rows_add_nothing()
    ensures { (query : Query) (partial : Partial) (rows more : List Row)
        → list_any (keeps query.cond) more ≡ false
        → Gathers partial query rows → Gathers partial query (rows ++ more) }
{}

/// Nor need such stored rows be: what has merged the others has merged them too.
pub fn other_stored_rows_add_nothing()
    ensures { (keys : List ℕ) (aggs : List Aggregate) (width : ℕ) (query : Query)
        (before made : Partial) (stored more : List Row)
        → list_any (λ row. keeps query.cond (as_row keys width row)) more ≡ false
        → Merges keys aggs width query before stored made
        → Merges keys aggs width query before (stored ++ more) made }
{}
