//! Reading a marks file.

ghost use Rattle.std.specs.Prelude.{◌≡◌, ◌≤◌, IfOk};
ghost use Rattle.mt_marks.specs.Entries.{AreMarks};
ghost use Rattle.mt_marks.specs.MarkReading.{marks_reading};
ghost use Rattle.mt_marks.specs.Results.{GivesMarks};

use crate::entries::check_marks;
use crate::fault::MarksError;
use crate::marks::{MAX_PER_GRANULE, Marks};
use crate::raw::raw_marks;
use mt_fault::Why;
use mt_frame::Frames;
use std::alloc::Global;

/// The marks of a `.mrk2` file: one for each granule of the data file that has these frames. `At` names
/// the first broken rule (docs/FORMAT.md, "Marks").
pub fn read_mrk2(alloc: Global, bytes: &[u8], frames: &Frames) -> Result<Marks, MarksError>
    ensures reads { GivesMarks result (marks_reading 1 frames.now bytes.now) }
    ensures complete { IfOk result AreMarks }
{
    read_marks(alloc, bytes, 1, frames)
}

/// The marks of a `.mrk3` file: one for each column of each granule, in the order of columns.txt.
pub fn read_mrk3(
    alloc: Global,
    bytes: &[u8],
    columns: u64,
    frames: &Frames,
) -> Result<Marks, MarksError>
    requires some { 1 ≤ columns }
    requires few { columns ≤ MAX_PER_GRANULE }
    ensures reads { GivesMarks result (marks_reading columns frames.now bytes.now) }
    ensures complete { IfOk result AreMarks }
{
    read_marks(alloc, bytes, columns, frames)
}

fn read_marks(
    alloc: Global,
    bytes: &[u8],
    per_granule: u64,
    frames: &Frames,
) -> Result<Marks, MarksError>
    requires some { 1 ≤ per_granule }
    requires few { per_granule ≤ MAX_PER_GRANULE }
    ensures reads { GivesMarks result (marks_reading per_granule frames.now bytes.now) }
    ensures complete { IfOk result AreMarks }
{
    let length = MarksError::At {
        granule: None,
        why: Why::Length,
    };
    let Some(marks) = raw_marks(alloc, bytes, per_granule)? else {
        return Err(length);
    };
    if marks.rows.len() < 2 {
        return Err(length);
    }
    match check_marks(&marks, frames) {
        Ok(()) => Ok(marks),
        Err(fault) => Err(fault),
    }
}
