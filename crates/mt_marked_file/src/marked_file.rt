//! A data file with its marks.

ghost use Rattle.std.specs.Prelude.{◌≤◌, IsTrue, length, sum};
ghost use Rattle.std.specs.String.{string_bytes};
ghost use Rattle.mt_shelf.specs.Paths.{is_path};
ghost use Rattle.mt_table.specs.declared.limits.TheConstants.{MAX_ROWS};
ghost use Rattle.mt_marks.specs.Entries.{AreMarks};
ghost use Rattle.mt_granules.specs.PayloadReading.{granules_of};

use mt_marks::Marks;

/// A data file and the entries of its marks file, whether they keep the rules of marks or not (docs/FORMAT.md,
/// "Marks").
#[derive(Drop)]
pub struct MarkedFile {
    /// The data file's path.
    pub path: String,
    /// Its size in bytes.
    pub size: u64,
    /// One entry for each granule and one for the end; the granules have `MAX_ROWS` rows at most.
    pub marks: Marks,
    ghost named: { IsTrue (is_path (string_bytes path)) },
    ghost complete: { AreMarks marks },
    ghost some: { 2 ≤ length marks.rows },
    ghost few: { sum (granules_of marks) ≤ MAX_ROWS },
}
