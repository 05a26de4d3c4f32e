//! The granules and keys of a definition's folder.

ghost use Rattle.std.specs.Prelude.{◌≡◌, ◌≤◌, length, IfOk};
ghost use Rattle.mt_table.specs.declared.limits.TheConstants.{MAX_ROWS};
ghost use Rattle.mt_defs.specs.Folder.{folder_of};
ghost use Rattle.mt_meta.specs.Definitions.{IsDefinition};
ghost use Rattle.mt_plan_known.specs.Finding.{Finds};
ghost use Rattle.mt_plan_known.specs.Known.{IsKnown};

use crate::granules::read_granules;
use crate::keys::read_index;
use mt_fault::{FileBytes, FileError};
use mt_files::{read_order, read_row_count};
use mt_table::PartDef;
use mt_types::{List, Row};
use std::alloc::Global;

/// The granules of a folder, and the primary keys at their bounds (ClickHouse: `MergeTreeIndexGranularity`
/// and the index of `IMergeTreeDataPart`).
#[derive(Drop)]
pub struct Known {
    /// The rows of each granule, at least 1.
    pub granules: List<u64>,
    /// The primary key of the first row of each granule, and of the last row of all.
    pub keys: List<Row>,
}

/// The granules and keys of a definition's folder, by columns.txt, count.txt, the first marks file and primary.idx.
pub fn read_known(
    alloc: Global,
    definition: &PartDef,
    files: &[FileBytes],
) -> Result<Known, FileError>
    requires { IsDefinition definition.now }
    ensures finds { Finds (IsKnown definition.now (folder_of files.now)) result }
    ensures few { IfOk result (λ known. length known.granules ≤ MAX_ROWS) }
{
    let order = read_order(alloc, definition, files)?;
    let count = read_row_count(alloc, definition, files)?;
    let granules = read_granules(alloc, definition, order.as_slice(), count, files)?;
    let keys = read_index(alloc, definition, granules.len(), files)?;
    Ok(Known { granules, keys })
}
