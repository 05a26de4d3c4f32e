//! primary.idx: the keys of the first row of each granule, and of the last row.

ghost use Rattle.std.specs.Prelude.{◌≡◌, ◌++◌, take, IfOk, OnOk};
ghost use Rattle.std.specs.List.{flat_map};
ghost use Rattle.mt_defs.specs.Granules.{granule_rows};
ghost use Rattle.mt_defs.specs.PrimaryIndex.{index_rows};
ghost use Rattle.mt_plain.specs.NumberRows.{HasNumbers, items_of_column};

use crate::items::append_items;
use mt_types::{List, NoMemory, Row};
use std::alloc::Global;

/// The keys of the rows that the primary index has, where one column is the key (docs/FORMAT.md,
/// "Primary index").
pub(crate) fn primary_index(
    alloc: Global,
    key: usize,
    rows: &[Row],
    granules: &[u64],
) -> Result<List<u8>, NoMemory>
    requires { HasNumbers key rows.now }
    ensures { IfOk result (λ bytes. bytes ≡ items_of_column key (index_rows rows.now granules.now)) }
{
    let mut bytes = List::new(alloc);
    append_first_keys(key, rows, granules, &mut bytes)?;
    let (_, last) = rows.split_at(rows.len().saturating_sub(1));
    append_items(key, last, &mut bytes)?;
    Ok(bytes)
}

/// Appends the key of the first row of each granule.
fn append_first_keys(
    key: usize,
    rows: &[Row],
    granules: &[u64],
    out: &mut List<u8>,
) -> Result<(), NoMemory>
    requires { HasNumbers key rows.now }
    ensures { OnOk result (out.new ≡
        out.old ++ items_of_column key (flat_map (take 1) (granule_rows granules.now rows.now))) }
{
    let mut rest = rows;
    for count in granules {
        let (granule, after) = rest.split_at((*count as usize).min(rest.len()));
        let (first, _) = granule.split_at(granule.len().min(1));
        append_items(key, first, out)?;
        rest = after;
    }
    Ok(())
}
