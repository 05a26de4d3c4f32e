//! Rows of an aggregate projection, merged into a partial answer.

ghost use Rattle.std.specs.Prelude.{◌≡◌, [], ◌∷◌, IfOk, None};
ghost use Rattle.mt_query.specs.declared.query.Item.TheVariants as item;
ghost use Rattle.mt_types.specs.declared.ty.Agg.TheVariants as agg;

use mt_fold::Partial;
use mt_look::{Look, Rows};
use mt_query::{Item, Query};
use mt_stored::{Grouped, add_stored};
use mt_table::Aggregate;
use mt_types::{Agg, AggState, List, NoMemory, Row, Value};
use std::alloc::Global;
use std::test::Fail;

/// `SELECT sum(a), count() GROUP BY b` over a table of the columns a and b.
fn sums_by_b(alloc: Global) -> Result<Query, NoMemory>
    ensures items { IfOk result (λ query. query.items ≡ item.Of agg.Sum 0 ∷ item.Count ∷ []) }
    ensures cond { IfOk result (λ query. query.cond ≡ None) }
    ensures keys { IfOk result (λ query. query.keys ≡ 1 ∷ []) }
{
    let mut items = List::new(alloc);
    items.push(Item::Of(Agg::Sum, 0))?;
    items.push(Item::Count)?;
    let mut keys = List::new(alloc);
    keys.push(1)?;
    Ok(Query {
        items,
        cond: None,
        keys,
        limit: None,
    })
}

/// A stored row: b, and then `count()` and `sum(a)`.
fn stored_row(alloc: Global, key: i128, count: u64, sum: u64) -> Result<Row, NoMemory> {
    let mut row = List::new(alloc);
    row.push(Value::Num(key))?;
    row.push(Value::State(AggState::Count(count)))?;
    row.push(Value::State(AggState::Sum(sum)))?;
    Ok(row)
}

/// Key, count and sum of each stored row.
const STORED: &[(i128, u64, u64)] = &[(1, 2, 30), (2, 1, 5), (1, 3, 4)];

fn stored_rows(alloc: Global) -> Result<List<Row>, NoMemory> {
    let mut rows = List::new(alloc);
    for (key, count, sum) in STORED {
        rows.push(stored_row(alloc, *key, *count, *sum)?)?;
    }
    Ok(rows)
}

/// What has merged all stored rows.
fn merged(alloc: Global, rows: &[Row]) -> Result<Partial, NoMemory> {
    let query = sums_by_b(alloc)?;
    let from = Rows { list: rows };
    let projection = Grouped {
        keys: &[1],
        aggs: &[Aggregate::Count, Aggregate::Of(Agg::Sum, 0)],
        width: 2,
    };
    let mut partial = Partial::new(alloc, &query)?;
    for row in 0..from.rows() {
        partial = add_stored(partial, alloc, &query, &projection, &from, row)?;
    }
    Ok(partial)
}

/// Whether a group's states are this sum and this count.
fn are_states(states: &[AggState], sum: u64, count: u64) -> bool {
    match states {
        [AggState::Sum(found), AggState::Count(rows)] => *found == sum && *rows == count,
        _ => false,
    }
}

#[test]
fn stored_states_are_merged(rt: HostRuntime) -> Result<(), Fail> {
    let alloc = rt.alloc();
    let rows = stored_rows(alloc)?;
    let partial = merged(alloc, rows.as_slice())?;
    assert_eq!(rt; partial.groups.len(), 2);
    for (key, sum, count) in [(1i128, 34u64, 5u64), (2, 5, 1)] {
        let mut wanted = List::new(alloc);
        wanted.push(Value::Num(key))?;
        let Some(states) = partial.groups.get(&wanted) else {
            return Err(Fail::from("no group"));
        };
        assert!(rt; are_states(states.as_slice(), sum, count), "at {key}");
    }
    Ok(())
}
