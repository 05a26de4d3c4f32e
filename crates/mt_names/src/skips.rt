//! The names of the files of skip indexes (docs/FORMAT.md, "Skip indexes").

ghost use Rattle.std.specs.Prelude.{◌≡◌, IfOk};
ghost use Rattle.mt_defs.specs.Part.{marks_ending};
ghost use Rattle.mt_defs.specs.SkipIndexes as index;

use crate::escape::file_name;
use mt_table::{Skip, SkipKind};
use mt_types::{List, NoMemory};
use std::alloc::Global;

/// The name of an index's data file (ClickHouse: `IMergeTreeIndex::getSerializedFileExtension`).
pub fn skip_data_name(alloc: Global, skip: &Skip) -> Result<List<u8>, NoMemory>
    ensures { IfOk result (λ name. name ≡ index.skip_data_name skip.now) }
{
    match skip.kind {
        SkipKind::Minmax => file_name(alloc, b"skp_idx_", skip.name.as_slice(), b".idx2"),
        SkipKind::Set(_) => file_name(alloc, b"skp_idx_", skip.name.as_slice(), b".idx"),
    }
}

/// The name of an index's marks file; `compact` is the part's layout.
pub fn skip_marks_name(alloc: Global, skip: &Skip, compact: bool) -> Result<List<u8>, NoMemory>
    ensures { IfOk result (λ name. name ≡ index.skip_marks_name skip.now (marks_ending compact)) }
{
    if compact {
        file_name(alloc, b"skp_idx_", skip.name.as_slice(), b".mrk3")
    } else {
        file_name(alloc, b"skp_idx_", skip.name.as_slice(), b".mrk2")
    }
}
