//! The granules that a marks file tells.

ghost use Rattle.std.specs.Prelude.{◌≡◌, ◌≤◌, ◌++◌, ◌∷◌, [], ℕ, List as Seq, Option, Some, None, map, length, option_map, sum, All, IfOk, IfSome, IsTrue};
ghost use Rattle.std.specs.List.{list_all};
ghost use Rattle.mt_table.specs.Kept.{is_place};
ghost use Rattle.mt_defs.specs.Folder.{folder_of};
ghost use Rattle.mt_defs.specs.Part.{is_compact};
ghost use Rattle.mt_marks.specs.declared.marks.TheConstants.{MAX_PER_GRANULE};
ghost use Rattle.mt_marks.specs.MarkReading.{entries_reading};
ghost use Rattle.mt_meta.specs.Definitions.{IsDefinition};
ghost use Rattle.mt_plan_known.specs.Finding.{Finds};
ghost use Rattle.mt_plan_known.specs.Granules.{is_marked};
ghost use Rattle.mt_plan_known.specs.Known.{AreMarked, TellsGranules, marks_each};

use mt_fault::{FileBytes, FileError, Why, file_fault};
use mt_files::{bytes_of, is_compact};
use mt_marks::raw_marks;
use mt_plan_files::granules_name;
use mt_table::PartDef;
use mt_types::{List, NoMemory};
use std::alloc::Global;

/// The granules that the marks file tells of a folder that lists these columns and has so many rows.
pub(crate) fn read_granules(
    alloc: Global,
    definition: &PartDef,
    order: &[u32],
    count: u64,
    files: &[FileBytes],
) -> Result<List<u64>, FileError>
    requires definition { IsDefinition definition.now }
    requires places { IsTrue (list_all (is_place definition.now.columns) order.now) }
    requires some { 1 ≤ length order.now }
    requires few { length order.now ≤ MAX_PER_GRANULE }
    ensures finds { Finds (TellsGranules definition.now (folder_of files.now) order.now count) result }
    ensures few { IfOk result (λ granules. length granules ≤ count) }
{
    let compact = is_compact(files);
    let name = granules_name(alloc, definition.columns.as_slice(), order, compact)?;
    let bytes = bytes_of(alloc, files, name.as_slice())?;
    match marked_rows(alloc, bytes, marks_each(order, compact))? {
        Some(rows) => match granules_of(alloc, rows.as_slice(), count)? {
            Some(granules) => Ok(granules),
            None => Err(file_fault(alloc, name.as_slice(), Why::Rows)),
        },
        None => Err(file_fault(alloc, name.as_slice(), Why::Length)),
    }
}

/// How many marks an entry has.
fn marks_each(order: &[u32], compact: bool) -> u64
    ensures { result ≡ marks_each order.now compact }
{
    if compact { order.len() as u64 } else { 1 }
}

/// The rows of the entries of a marks file, if it is a whole number of entries.
fn marked_rows(alloc: Global, bytes: &[u8], per_entry: u64) -> Result<Option<List<u64>>, NoMemory>
    requires some { 1 ≤ per_entry }
    requires few { per_entry ≤ MAX_PER_GRANULE }
    ensures { IfOk result (λ rows. rows ≡ option_map (map (λ entry. entry.rows)) (entries_reading per_entry bytes.now)) }
{
    match raw_marks(alloc, bytes, per_entry)? {
        Some(marks) => Ok(Some(marks.rows)),
        None => Ok(None),
    }
}

/// All but the last of the rows of some entries, if these are granules of so many rows.
fn granules_of(alloc: Global, rows: &[u64], count: u64) -> Result<Option<List<u64>>, NoMemory>
    ensures found { IfOk result (λ granules. IfSome granules (AreMarked count rows.now)) }
    ensures only { (granules : Seq ℕ) → AreMarked count rows.now granules → IfOk result (λ found. found ≡ Some granules) }
{
    let Some((last, granules)) = rows.split_last() else {
        return Ok(None);
    };
    if *last != 0 {
        return Ok(None);
    }
    if !is_marked(granules, count) {
        return Ok(None);
    }
    Ok(Some(copied(alloc, granules)?))
}

/// A copy of some numbers.
fn copied(alloc: Global, numbers: &[u64]) -> Result<List<u64>, NoMemory>
    ensures { IfOk result (λ copied. copied ≡ numbers.now) }
{
    let mut copied = List::with_capacity(alloc, numbers.len())?;
    for number in numbers {
        copied.push(*number)?;
    }
    Ok(copied)
}

/// Whether each of some granules has a row, and they have so many together.
fn is_marked(granules: &[u64], count: u64) -> bool
    ensures { result ≡ is_marked count granules.now }
{
    let mut left = count;
    for rows in granules {
        if *rows == 0 || *rows > left {
            return false;
        }
        left -= *rows;
    }
    left == 0
}
