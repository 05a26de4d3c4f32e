//! Partial answers with stored rows of an aggregate projection.

ghost use Rattle.std.specs.Prelude.{◌&&◌, ◌+◌, ◌<◌, ◌++◌, ◌∷◌, [], length, IsTrue, IfOk, List};
ghost use Rattle.mt_table.specs.Stored.{index_in};
ghost use Rattle.mt_defs.specs.Projections.{aggregate_index};
ghost use Rattle.mt_defs.specs.Rows as defined;
ghost use Rattle.mt_look.specs.Seen.{row_by_index};
ghost use Rattle.mt_fold.specs.Gathered.{Suits};
ghost use Rattle.mt_fold.specs.declared.partial.Partial as answer;
ghost use Rattle.mt_stored.specs.Merged.{Merges};
ghost use Rattle.mt_stored.specs.Needed.{groups_pass};
ghost use Rattle.mt_stored.specs.Placed.{is_stored_column};

use crate::group::join_to_group;
use crate::grouped::Grouped;
use crate::placed::Placed;
use mt_fold::{Partial, keeps, key_of};
use mt_look::Look;
use mt_query::Query;
use mt_types::NoMemory;
use std::alloc::Global;

/// Merges one stored row more of an aggregate projection into a partial answer. On `NoMemory` what
/// was gathered is given up.
pub fn add_stored<L: Look>(
    partial: Partial,
    alloc: Global,
    query: &Query,
    projection: &Grouped,
    from: &L,
    row: u64,
) -> Result<Partial, NoMemory>
    requires suits { Suits partial query.now }
    requires shown { IsTrue (groups_pass
        (λ column. is_stored_column projection.now.keys.now projection.now.width column
        && L.shows from.now (index_in projection.now.keys.now column))
        (λ aggregate. L.shows from.now (length projection.now.keys.now
        + aggregate_index projection.now.aggs.now aggregate)) query.now) }
    requires there { row < length (L.rows_of from.now) }
    ensures suits { IfOk result (λ made. Suits made query.now) }
    ensures merges { (before : answer.Partial) (stored : List defined.Row)
        → Merges projection.now.keys.now projection.now.aggs.now projection.now.width
        query.now before stored partial
        → IfOk result (λ made. Merges projection.now.keys.now projection.now.aggs.now
        projection.now.width query.now before
        (stored ++ row_by_index (L.rows_of from.now) row ∷ []) made) }
{
    let placed = Placed {
        from,
        places: projection.keys,
        width: projection.width,
    };
    if !keeps(&query.cond, &placed, row) {
        return Ok(partial);
    }
    let key = key_of(alloc, query.keys.as_slice(), &placed, row)?;
    let Partial { rows, groups } = partial;
    let groups = join_to_group(
        alloc,
        query.items.as_slice(),
        projection,
        groups,
        key,
        from,
        row,
    )?;
    Ok(Partial { rows, groups })
}
