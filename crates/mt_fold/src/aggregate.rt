//! The aggregates of a query, and the numbers that they take of a row.

ghost use Rattle.std.specs.Prelude.{◌≡◌, ◌<◌, ◌&&◌, not, length, IsTrue};
ghost use Rattle.mt_types.specs.declared.value.Value.{out-Value};
ghost use Rattle.mt_defs.specs.Folds as folds;
ghost use Rattle.mt_look.specs.Seen.{row_by_index, value_seen};
ghost use Rattle.mt_fold.specs.Answer as answer;
ghost use Rattle.mt_query.specs.Named.{item_passes};
ghost use Rattle.mt_fold.specs.Steps.{aggregate_item, option_list};

use mt_look::{Look, Seen};
use mt_query::{Item, Query};
use mt_table::Aggregate;
use mt_types::Value;

/// The aggregate of an item, if it is one.
pub fn aggregate_of(item: Item) -> Option<Aggregate>
    ensures { option_list result ≡ answer.item_aggregates item }
{
    match item {
        Item::Column(_) => None,
        Item::Count => Some(Aggregate::Count),
        Item::Of(agg, column) => Some(Aggregate::Of(agg, column)),
    }
}

/// The number that an aggregate takes of a row; a count takes any.
pub fn number_of<L: Look>(aggregate: Aggregate, from: &L, row: u64) -> i128
    requires shown { IsTrue (item_passes (L.shows from.now) (aggregate_item aggregate)) }
    requires there { row < length (L.rows_of from.now) }
    ensures { result ≡ folds.number_taken aggregate (row_by_index (L.rows_of from.now) row) }
{
    match aggregate {
        Aggregate::Count => 0,
        Aggregate::Of(_, column) => number_at(from.item(column, row)),
    }
}

/// The number of a value, or 0.
fn number_at(seen: Seen) -> i128
    ensures { result ≡ folds.number_or_zero (out-Value (value_seen seen.entry)) }
{
    match seen {
        Seen::Num(number) => number,
        Seen::Held(value) => match value {
            Value::Num(number) => *number,
            _ => 0,
        },
        _ => 0,
    }
}

fn has_aggregate(items: &[Item]) -> bool
    ensures { result ≡ not (answer.is_empty (answer.aggregates items.now)) }
{
    for item in items {
        if aggregate_of(*item).is_some() {
            return true;
        }
    }
    false
}

fn has_keys(query: &Query) -> bool
    ensures { result ≡ not (answer.is_empty query.now.keys) }
{
    match query.keys.as_slice() {
        [] => false,
        _ => true,
    }
}

/// Whether the answer is by groups: there is a GROUP BY or an aggregate.
pub fn is_grouped(query: &Query) -> bool
    ensures { result ≡ answer.is_grouped query.now }
{
    if has_keys(query) {
        return true;
    }
    has_aggregate(query.items.as_slice())
}

/// Whether all rows are one group, also where there is none.
pub fn is_one_group(query: &Query) -> bool
    ensures { result ≡ answer.is_empty query.now.keys && answer.is_grouped query.now }
{
    if has_keys(query) {
        return false;
    }
    is_grouped(query)
}
