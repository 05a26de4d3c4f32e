//! Groups of rows by their keys.

ghost use Rattle.std.specs.Prelude.{◌≡◌, ◌<◌, [], length, IsTrue, IfOk, cond, Some, unwrap_or};
ghost use Rattle.std.specs.List.{list_all};
ghost use Rattle.indexmap.specs.IndexMap.{get, IsUnique};
ghost use Rattle.mt_types.specs.declared.value.Value.{Value};
ghost use Rattle.mt_defs.specs.Projections.{is_same_key};
ghost use Rattle.mt_look.specs.Seen.{row_by_index};
ghost use Rattle.mt_fold.specs.Answer.{aggregates};
ghost use Rattle.mt_query.specs.Named.{item_passes};
ghost use Rattle.mt_fold.specs.Gathered.{folds_of};
ghost use Rattle.mt_fold.specs.Steps.{each_with};

use crate::state::{add_row, empty_states};
use indexmap::IndexMap;
use mt_look::Look;
use mt_query::Item;
use mt_types::{AggState, List, NoMemory, Row};
use std::alloc::Global;

/// Adds a row's numbers to the group of its key, which is there from then on.
pub fn add_to_group<L: Look>(
    alloc: Global,
    items: &[Item],
    mut groups: IndexMap<Row, List<AggState>>,
    key: Row,
    from: &L,
    row: u64,
) -> Result<IndexMap<Row, List<AggState>>, NoMemory>
    requires shown { IsTrue (list_all (item_passes (L.shows from.now)) items.now) }
    requires there { row < length (L.rows_of from.now) }
    ensures unique { IfOk result (IsUnique is_same_key) }
    ensures added { IfOk result (λ made. (k : List Value) → get is_same_key made k
        ≡ cond (is_same_key key k)
        (Some (each_with (aggregates items.now) (row_by_index (L.rows_of from.now) row)
        (unwrap_or (get is_same_key groups key) (folds_of (aggregates items.now) []))))
        (get is_same_key groups k)) }
{
    if let Some(states) = groups.get_mut(&key) {
        add_row(alloc, items, from, row, states);
        return Ok(groups);
    }
    let mut states = empty_states(alloc, items)?;
    add_row(alloc, items, from, row, &mut states);
    groups.insert(key, states)?;
    Ok(groups)
}
