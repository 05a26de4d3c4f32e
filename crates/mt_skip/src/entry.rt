//! The writer's entry of some values.

ghost use Rattle.std.specs.Prelude.{◌≡◌, ◌++◌, IfOk, IsTrue, OnOk};
ghost use Rattle.std.specs.List.{flat_map};
ghost use Rattle.mt_types.specs.Items.{item_bytes};
ghost use Rattle.mt_table.specs.declared.skip.SkipKind.TheVariants.{Set};
ghost use Rattle.mt_item.specs.ItemTypes.{has_items};
ghost use Rattle.mt_defs.specs.SkipIndexes.{set_bytes};
ghost use Rattle.mt_defs.specs.WrittenPartition.{minmax_bytes};
ghost use Rattle.mt_defs.specs.WrittenSkips.{written_entry};
ghost use Rattle.mt_skip.specs.Gathering.{values_in};
ghost use Rattle.mt_skip.specs.Items.{AllFit};

use crate::distinct::distinct_of;
use crate::extreme::{Extreme, extreme_of};
use crate::seen::Seen;
use indexmap::IndexSet;
use mt_item::put_item;
use mt_table::SkipKind;
use mt_types::{List, NoMemory, Ty, Value};
use std::alloc::Global;

/// The entry that the writer makes of the values of some granules (docs/FORMAT.md, "Skip indexes";
/// ClickHouse: `IMergeTreeIndexGranule::serializeBinary`).
pub fn entry_of(
    alloc: Global,
    kind: SkipKind,
    ty: &Ty,
    values: &[Value],
) -> Result<List<u8>, NoMemory>
    requires items { IsTrue (has_items ty.now) }
    requires fit { AllFit ty.now values.now }
    ensures { IfOk result (λ entry. entry ≡ written_entry kind ty.now values.now) }
{
    match kind {
        SkipKind::Minmax => minmax_entry(alloc, ty, values),
        SkipKind::Set(max_rows) => set_entry(alloc, max_rows, ty, values),
    }
}

/// The least and then the greatest value.
pub fn minmax_entry(alloc: Global, ty: &Ty, values: &[Value]) -> Result<List<u8>, NoMemory>
    requires items { IsTrue (has_items ty.now) }
    requires fit { AllFit ty.now values.now }
    ensures { IfOk result (λ entry. entry ≡ minmax_bytes ty.now values.now) }
{
    let mut entry = List::new(alloc);
    if !values.is_empty() {
        put_item(ty, &values[extreme_of(Extreme::Least, values)], &mut entry)?;
        put_item(
            ty,
            &values[extreme_of(Extreme::Greatest, values)],
            &mut entry,
        )?;
    }
    Ok(entry)
}

/// The distinct values, or a count of 0 where they are too many.
fn set_entry(alloc: Global, max_rows: u64, ty: &Ty, values: &[Value]) -> Result<List<u8>, NoMemory>
    requires items { IsTrue (has_items ty.now) }
    requires fit { AllFit ty.now values.now }
    ensures { IfOk result (λ entry. entry ≡ written_entry (Set max_rows) ty.now values.now) }
{
    match distinct_of(alloc, max_rows, values)? {
        Some(distinct) => listed_entry(alloc, ty, &distinct),
        None => List::of_bytes(alloc, &0u64.to_le_bytes()),
    }
}

/// The number of some values, and each of them.
fn listed_entry(alloc: Global, ty: &Ty, values: &IndexSet<Seen>) -> Result<List<u8>, NoMemory>
    requires items { IsTrue (has_items ty.now) }
    requires fit { AllFit ty.now (values_in values.now.keys) }
    ensures { IfOk result (λ entry. entry ≡ set_bytes ty.now (values_in values.now.keys)) }
{
    let mut entry = List::of_bytes(alloc, &(values.len() as u64).to_le_bytes())?;
    append_items(ty, values, &mut entry)?;
    Ok(entry)
}

/// Appends the items of the values.
fn append_items(ty: &Ty, values: &IndexSet<Seen>, out: &mut List<u8>) -> Result<(), NoMemory>
    requires items { IsTrue (has_items ty.now) }
    requires fit { AllFit ty.now (values_in values.now.keys) }
    ensures { OnOk result (out.new ≡
        out.old ++ flat_map (item_bytes ty.now) (values_in values.now.keys)) }
{
    for i in 0..values.len() {
        let Some(seen) = values.get_index(i) else {
            unreachable!()
        };
        put_item(ty, seen.value, out)?;
    }
    Ok(())
}
