//! The marks of a skip index.

ghost use Rattle.std.specs.Prelude.{◌≡◌, ◌+◌, ◌*◌, ◌<◌, ◌≤◌, ◌^◌, None, length};
ghost use Rattle.mt_fault.specs.Results.{Gives};
ghost use Rattle.mt_files.specs.SkipMarks as defined;

use mt_defs::Mark;
use mt_fault::{FileError, Why, file_fault, granule_fault};
use mt_frame::Frames;
use mt_marks::{check_mark, raw_marks};
use mt_types::List;
use std::alloc::Global;

/// So many marks of a file of this name.
pub(crate) fn read_marks(
    alloc: Global,
    file: &[u8],
    count: usize,
    bytes: &[u8],
) -> Result<List<Mark>, FileError>
    ensures { Gives result (defined.skip_marks_reading file.now count bytes.now) }
{
    match raw_marks(alloc, bytes, 1) {
        Ok(Some(marks)) => {
            if marks.places.len() != count {
                return Err(file_fault(alloc, file, Why::Length));
            }
            Ok(marks.places)
        }
        Ok(None) => Err(file_fault(alloc, file, Why::Length)),
        Err(_) => Err(FileError::NoMemory),
    }
}

/// The positions of the marks of a file of this name, of which each stands for so many granules.
pub(crate) fn read_positions(
    alloc: Global,
    file: &[u8],
    per_entry: u64,
    frames: &Frames,
    marks: &[Mark],
) -> Result<List<u64>, FileError>
    requires { length marks.now * per_entry < 2 ^ 64 }
    ensures { Gives result (defined.positions_reading file.now per_entry frames.now.end frames.now.list 0 None marks.now) }
{
    let Ok(mut positions) = List::with_capacity(alloc, marks.len()) else {
        return Err(FileError::NoMemory);
    };
    let mut former = None;
    for (index, mark) in marks.iter().enumerate() {
        match check_mark(frames, false, former, mark) {
            Ok(here) => {
                let Ok(()) = positions.push(here.position) else {
                    return Err(FileError::NoMemory);
                };
                former = Some(here);
            }
            Err(why) => return Err(granule_fault(alloc, file, index as u64 * per_entry, why)),
        }
    }
    Ok(positions)
}
