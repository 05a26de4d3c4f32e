//! The states of a group: one per aggregate of the query, in the query's order.

ghost use Rattle.std.specs.Prelude.{◌≡◌, ◌<◌, [], length, IsTrue, IfOk};
ghost use Rattle.std.specs.List.{list_all};
ghost use Rattle.mt_look.specs.Seen.{row_by_index};
ghost use Rattle.mt_fold.specs.Answer.{aggregates};
ghost use Rattle.mt_query.specs.Named.{item_passes};
ghost use Rattle.mt_fold.specs.Gathered.{folds_of};
ghost use Rattle.mt_fold.specs.Steps.{each_with};

use crate::aggregate::{aggregate_of, number_of};
use mt_agg::Folding;
use mt_look::Look;
use mt_query::Item;
use mt_types::{AggState, List, NoMemory};
use std::alloc::Global;
use std::mem;

/// The states of no rows.
pub fn empty_states(alloc: Global, items: &[Item]) -> Result<List<AggState>, NoMemory>
    ensures { IfOk result (λ states. states ≡ folds_of (aggregates items.now) []) }
{
    let mut states = List::new(alloc);
    for item in items {
        if let Some(aggregate) = aggregate_of(*item) {
            states.push(AggState::empty(&aggregate))?;
        }
    }
    Ok(states)
}

/// Adds a row's numbers to the states. It takes no memory.
pub fn add_row<L: Look>(
    alloc: Global,
    items: &[Item],
    from: &L,
    row: u64,
    states: &mut List<AggState>,
)
    requires shown { IsTrue (list_all (item_passes (L.shows from.now)) items.now) }
    requires there { row < length (L.rows_of from.now) }
    ensures { states.new
        ≡ each_with (aggregates items.now) (row_by_index (L.rows_of from.now) row) states.old }
{
    let mut held = mem::replace(states, List::new(alloc)).into_vec();
    add_numbers(items, from, row, held.as_mut_slice());
    *states = List::of(held);
}

fn add_numbers<L: Look>(items: &[Item], from: &L, row: u64, states: &mut [AggState])
    requires shown { IsTrue (list_all (item_passes (L.shows from.now)) items.now) }
    requires there { row < length (L.rows_of from.now) }
    ensures { states.new
        ≡ each_with (aggregates items.now) (row_by_index (L.rows_of from.now) row) states.old }
{
    let mut place: usize = 0;
    for item in items {
        if let Some(aggregate) = aggregate_of(*item) {
            if place < states.len() {
                let mut state = states[place];
                state.add(number_of(aggregate, from, row));
                states[place] = state;
                place += 1;
            }
        }
    }
}
