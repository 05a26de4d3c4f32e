//! An index of files by their names.

ghost use Rattle.std.specs.Prelude.{IsSorted};
ghost use Rattle.mt_granules.specs.FileOrder.{referenced_files, name_cmp};

use mt_fault::FileBytes;

/// Files that are found by halves: of two of one name, the first.
#[derive(Drop)]
pub struct FileIndex<'a> {
    /// In the byte order of their names, files of one name in the order that they had.
    pub(crate) sorted: Vec<&'a FileBytes>,
    ghost rising: { IsSorted name_cmp (referenced_files sorted.items) },
}
