//! Stored states, joined to those of a group.

ghost use Rattle.std.specs.Prelude.{◌≡◌, ◌+◌, ◌<◌, [], length, map, IsTrue, IfOk, cond, Some, unwrap_or};
ghost use Rattle.std.specs.List.{list_all};
ghost use Rattle.indexmap.specs.IndexMap.{get, IsUnique};
ghost use Rattle.mt_types.specs.declared.value.Value.{Value};
ghost use Rattle.mt_defs.specs.Projections.{aggregate_index, is_same_key};
ghost use Rattle.mt_look.specs.Seen.{row_by_index};
ghost use Rattle.mt_fold.specs.Answer.{aggregates};
ghost use Rattle.mt_fold.specs.Gathered.{folds_of};
ghost use Rattle.mt_stored.specs.Merged.{given_state, join_each};

use crate::grouped::Grouped;
use indexmap::IndexMap;
use mt_agg::Folding;
use mt_fold::{aggregate_of, empty_states};
use mt_look::Look;
use mt_query::Item;
use mt_types::{AggState, List, NoMemory, Row};
use std::alloc::Global;
use std::mem;

/// Joins a stored row's states to the group of a key, which is there from then on.
pub fn join_to_group<L: Look>(
    alloc: Global,
    items: &[Item],
    projection: &Grouped,
    mut groups: IndexMap<Row, List<AggState>>,
    key: Row,
    from: &L,
    row: u64,
) -> Result<IndexMap<Row, List<AggState>>, NoMemory>
    requires shown { IsTrue (list_all (λ aggregate. L.shows from.now (length projection.now.keys.now
        + aggregate_index projection.now.aggs.now aggregate)) (aggregates items.now)) }
    requires there { row < length (L.rows_of from.now) }
    ensures unique { IfOk result (IsUnique is_same_key) }
    ensures joined { IfOk result (λ made. (k : List Value) → get is_same_key made k
        ≡ cond (is_same_key key k)
        (Some (join_each (unwrap_or (get is_same_key groups key) (folds_of (aggregates items.now) []))
        (map (given_state projection.now.keys.now projection.now.aggs.now
        (row_by_index (L.rows_of from.now) row)) (aggregates items.now))))
        (get is_same_key groups k)) }
{
    if let Some(states) = groups.get_mut(&key) {
        join_row(alloc, items, projection, from, row, states);
        return Ok(groups);
    }
    let mut states = empty_states(alloc, items)?;
    join_row(alloc, items, projection, from, row, &mut states);
    groups.insert(key, states)?;
    Ok(groups)
}

/// Joins a stored row's states to some. It takes no memory.
fn join_row<L: Look>(
    alloc: Global,
    items: &[Item],
    projection: &Grouped,
    from: &L,
    row: u64,
    states: &mut List<AggState>,
)
    requires shown { IsTrue (list_all (λ aggregate. L.shows from.now (length projection.now.keys.now
        + aggregate_index projection.now.aggs.now aggregate)) (aggregates items.now)) }
    requires there { row < length (L.rows_of from.now) }
    ensures { states.new ≡ join_each states.old (map (given_state projection.now.keys.now
        projection.now.aggs.now (row_by_index (L.rows_of from.now) row)) (aggregates items.now)) }
{
    let mut held = mem::replace(states, List::new(alloc)).into_vec();
    join_states(items, projection, from, row, held.as_mut_slice());
    *states = List::of(held);
}

fn join_states<L: Look>(
    items: &[Item],
    projection: &Grouped,
    from: &L,
    row: u64,
    states: &mut [AggState],
)
    requires shown { IsTrue (list_all (λ aggregate. L.shows from.now (length projection.now.keys.now
        + aggregate_index projection.now.aggs.now aggregate)) (aggregates items.now)) }
    requires there { row < length (L.rows_of from.now) }
    ensures { states.new ≡ join_each states.old (map (given_state projection.now.keys.now
        projection.now.aggs.now (row_by_index (L.rows_of from.now) row)) (aggregates items.now)) }
{
    let mut place: usize = 0;
    for item in items {
        if let Some(aggregate) = aggregate_of(*item) {
            if place < states.len() {
                let mut state = states[place];
                state.merge(&projection.given_state(aggregate, from, row));
                states[place] = state;
                place += 1;
            }
        }
    }
}
