//! The distinct values of a column in some granules, in the order of their first appearance.

ghost use Rattle.std.specs.Prelude.{◌≡◌, ◌&&◌, nat_lt, IfOk};
ghost use Rattle.mt_skip.specs.Gathering.{GathersDistinct};

use crate::seen::Seen;
use indexmap::IndexSet;
use mt_types::{NoMemory, Value};
use std::alloc::Global;

/// The distinct values, by hash, or none where there are more than `max_rows`, which is known one
/// value after it; a limit of 0 is none.
pub fn distinct_of<'a>(
    alloc: Global,
    max_rows: u64,
    values: &'a [Value],
) -> Result<Option<IndexSet<Seen<'a>>>, NoMemory>
    ensures { IfOk result (GathersDistinct max_rows values.now) }
{
    let mut distinct = IndexSet::new(alloc);
    for value in values {
        distinct.insert(Seen { value })?;
        if is_above(distinct.len(), max_rows) {
            return Ok(None);
        }
    }
    Ok(Some(distinct))
}

/// More than the limit; a limit of 0 is none.
fn is_above(count: usize, max_rows: u64) -> bool
    ensures { result ≡ (nat_lt 0 max_rows && nat_lt max_rows count) }
{
    max_rows > 0 && count as u64 > max_rows
}
