//! The entries of an index, one over so many granules.

ghost use Rattle.std.specs.Prelude.{◌≡◌, ◌≤◌, ◌<◌, ◌^◌, List, length, map, sum, IfOk, IsTrue};
ghost use Rattle.mt_table.specs.declared.definition.Table.{Table};
ghost use Rattle.mt_defs.specs.Metadata.{column_at};
ghost use Rattle.mt_defs.specs.Rows.{Row, column_values};
ghost use Rattle.mt_defs.specs.WrittenSkips.{written_entries, written_entry};
ghost use Rattle.mt_item.specs.ItemTypes.{has_items};
ghost use Rattle.mt_skip.specs.Groups.{value_groups};
ghost use Rattle.mt_skip.specs.Items.{AllFit};

use crate::entry::entry_of;
use mt_table::Skip;
use mt_types::{List, NoMemory, Ty, Value};
use std::alloc::Global;

/// The writer's entries of an index over a column of this type and these values: one over each
/// `skip.granularity` granules, the last over what is left (docs/FORMAT.md, "Skip indexes"). The
/// granules are given by the number of their rows.
pub fn entries(
    alloc: Global,
    skip: &Skip,
    ty: &Ty,
    values: &[Value],
    granules: &[u64],
) -> Result<List<List<u8>>, NoMemory>
    requires items { IsTrue (has_items ty.now) }
    requires fit { AllFit ty.now values.now }
    requires cut { sum granules.now ≡ length values.now }
    requires granularity { 1 ≤ skip.now.granularity }
    ensures written { IfOk result (λ entries. entries ≡ map (written_entry skip.now.kind ty.now)
        (value_groups skip.now.granularity (length granules.now) granules.now values.now)) }
    ensures entries { (table : Table) (rows : List Row)
        → ty.now ≡ (column_at table.columns skip.now.column).ty
        → values.now ≡ column_values skip.now.column rows
        → IfOk result (λ entries. entries ≡ written_entries table skip.now rows granules.now) }
{
    group_entries(alloc, skip, ty, values, granules)
}

fn group_entries(
    alloc: Global,
    skip: &Skip,
    ty: &Ty,
    values: &[Value],
    granules: &[u64],
) -> Result<List<List<u8>>, NoMemory>
    requires items { IsTrue (has_items ty.now) }
    requires fit { AllFit ty.now values.now }
    requires cut { sum granules.now ≡ length values.now }
    requires granularity { 1 ≤ skip.now.granularity }
    ensures { IfOk result (λ entries. entries ≡ map (written_entry skip.now.kind ty.now)
        (value_groups skip.now.granularity (length granules.now) granules.now values.now)) }
{
    let mut made = List::new(alloc);
    let mut counts = granules;
    let mut rest = values;
    while !counts.is_empty() {
        let (group, later) = counts.split_at(counts.len().min(skip.granularity as usize));
        let (covered, after) = rest.split_at(rows_of(group));
        made.push(entry_of(alloc, skip.kind, ty, covered)?)?;
        counts = later;
        rest = after;
    }
    Ok(made)
}

/// The rows of some granules together.
fn rows_of(granules: &[u64]) -> usize
    requires { sum granules.now < 2 ^ 64 }
    ensures { result ≡ sum granules.now }
{
    granules.iter().sum::<u64>() as usize
}
