//! The granules: rows join one until it is full.

ghost use Rattle.std.specs.Prelude.{◌≡◌, ◌≢◌, [], ◌||◌, nat_le, IfOk};
ghost use Rattle.mt_defs.specs.WrittenGranules.{written_granules};
ghost use Rattle.mt_defs.specs.WrittenGranules as defined;
ghost use Rattle.mt_plain.specs.NumberRows.{AreNumberRows, HasNumbers, IsFirstGranule, rows_payload};

use crate::items::append_items;
use mt_table::{Settings, Table};
use mt_types::{List, NoMemory, Row};
use std::alloc::Global;

/// How many rows each granule has (docs/FORMAT.md, "The writer's folder").
pub(crate) fn granules_of(alloc: Global, table: &Table, rows: &[Row]) -> Result<List<u64>, NoMemory>
    requires { AreNumberRows table.now rows.now }
    ensures { IfOk result (λ granules.
        granules ≡ written_granules table.now.settings table.now.columns rows.now) }
{
    let mut granules = List::new(alloc);
    let mut rest = rows;
    while !rest.is_empty() {
        let count = first_granule(alloc, table, rest)?;
        granules.push(count as u64)?;
        let (_, after) = rest.split_at(count);
        rest = after;
    }
    Ok(granules)
}

/// How many rows the first granule of some rows has: the fewest that fill one, or all.
fn first_granule(alloc: Global, table: &Table, rows: &[Row]) -> Result<usize, NoMemory>
    requires numbers { AreNumberRows table.now rows.now }
    requires some { rows.now ≢ [] }
    ensures { IfOk result (λ count. IsFirstGranule table.now rows.now count) }
{
    for count in 1..rows.len() {
        let (begun, _) = rows.split_at(count);
        if is_full(alloc, table, begun)? {
            return Ok(count);
        }
    }
    Ok(rows.len())
}

/// Whether some rows fill a granule.
fn is_full(alloc: Global, table: &Table, rows: &[Row]) -> Result<bool, NoMemory>
    requires { AreNumberRows table.now rows.now }
    ensures { IfOk result (λ full.
        full ≡ defined.is_full table.now.settings table.now.columns rows.now) }
{
    let payload = payload_of(alloc, rows)?;
    Ok(fills(&table.settings, rows.len() as u64, payload.len() as u64))
}

/// Whether so many rows of so many bytes fill a granule.
fn fills(settings: &Settings, rows: u64, bytes: u64) -> bool
    ensures { result ≡
        (nat_le settings.now.granule_rows rows || nat_le settings.now.granule_bytes bytes) }
{
    settings.granule_rows <= rows || settings.granule_bytes <= bytes
}

/// The payload of some rows: the items of the first column, and then those of the second.
fn payload_of(alloc: Global, rows: &[Row]) -> Result<List<u8>, NoMemory>
    requires first { HasNumbers 0 rows.now }
    requires second { HasNumbers 1 rows.now }
    ensures { IfOk result (λ payload. payload ≡ rows_payload rows.now) }
{
    let mut payload = List::new(alloc);
    append_items(0, rows, &mut payload)?;
    append_items(1, rows, &mut payload)?;
    Ok(payload)
}
