//! Whether an entry lets a condition be true.

ghost use Rattle.std.specs.Prelude.{◌≡◌, ◌<◌, ◌^◌, List, Some, true, length, Contains, IfOk, IsTrue};
ghost use Rattle.mt_types.specs.declared.value.Value.{Value};
ghost use Rattle.mt_table.specs.declared.column.Column.{Column};
ghost use Rattle.mt_defs.specs.Rows.{Row, RowFits, cell};
ghost use Rattle.mt_defs.specs.SkipIndexes.{Summarizes};
ghost use Rattle.mt_item.specs.ItemTypes.{has_items};
ghost use Rattle.mt_query.specs.Suits.{cond_suits};
ghost use Rattle.mt_query.specs.Truth.{truth_of};
ghost use Rattle.mt_skip.specs.Items.{AllFit};
ghost use Rattle.mt_match.specs.Matching.{JudgesEntry};

use crate::entry::{may_minmax, may_set};
use mt_query::Cond;
use mt_table::{Skip, SkipKind};
use mt_types::{NoMemory, Ty};
use std::alloc::Global;

/// Whether an entry of an index over a column of this type lets a condition be true, or none where the
/// bytes have not the form of an entry (docs/LANGUAGE.md, "Masks and covers"; ClickHouse:
/// `IMergeTreeIndexCondition::mayBeTrueOnGranule`).
pub fn may_match(
    alloc: Global,
    cond: &Cond,
    skip: &Skip,
    ty: &Ty,
    entry: &[u8],
) -> Result<Option<bool>, NoMemory>
    requires { IsTrue (has_items ty.now) }
    ensures exact { IfOk result (JudgesEntry cond.now skip.now.column skip.now.kind ty.now entry.now) }

    // Where a row has one of the values of which the entry is, and makes the condition true, it may be true.
    ensures sound { (columns : List Column) (values : List Value) (row : Row)
        → AllFit ty.now values → length values < 2 ^ 64
        → Summarizes skip.now.kind ty.now values entry.now
        → IsTrue (cond_suits columns cond.now) → RowFits columns row
        → Contains values (cell row skip.now.column) → truth_of cond.now row ≡ Some true
        → IfOk result (λ may. may ≡ Some true) }
{
    match skip.kind {
        SkipKind::Minmax => may_minmax(alloc, cond, skip.column, ty, entry),
        SkipKind::Set(max_rows) => may_set(alloc, cond, skip.column, max_rows, ty, entry),
    }
}
