//! The columns that a folder lists.

ghost use Rattle.std.specs.Prelude.{◌≡◌, map, IfOk, IsTrue};
ghost use Rattle.std.specs.List.{list_all};
ghost use Rattle.mt_table.specs.Kept.{is_place};
ghost use Rattle.mt_table.specs.Stored.{column_at};

use mt_table::Column;
use mt_types::{List, NoMemory};
use std::alloc::Global;

/// The columns at some places, in their order.
pub fn listed_columns(
    alloc: Global,
    columns: &[Column],
    order: &[u32],
) -> Result<List<Column>, NoMemory>
    requires { IsTrue (list_all (is_place columns.now) order.now) }
    ensures { IfOk result (λ listed. listed ≡ map (column_at columns.now) order.now) }
{
    let mut listed = List::with_capacity(alloc, order.len())?;
    for place in order {
        listed.push(columns[*place as usize].copy(alloc)?)?;
    }
    Ok(listed)
}
