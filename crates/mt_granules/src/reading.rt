//! Reading a data file and its marks file.

ghost use Rattle.std.specs.Prelude.{◌≡◌, ◌<◌, ◌≤◌, length, IfOk, get_or, slice_index_or};
ghost use Rattle.mt_defs.specs.Lists.{AreBytes};
ghost use Rattle.mt_marks.specs.declared.marks.TheConstants.{MAX_PER_GRANULE};
ghost use Rattle.mt_marks.specs.Entries.{AreMarks};
ghost use Rattle.mt_marks.specs.MarkReading.{marks_reading};
ghost use Rattle.mt_fault.specs.Faults.{blame};
ghost use Rattle.mt_granules.specs.FileFaults.{frame_fault, frame_why, marks_fault};
ghost use Rattle.mt_granules.specs.FileFolder.{indexed_folder};
ghost use Rattle.mt_granules.specs.PayloadReading.{frames_in, granules_of, granules_reading, payloads_reading};
ghost use Rattle.mt_granules.specs.PayloadView.{payloads_in};
ghost use Rattle.mt_fault.specs.Results.{Gives, Shows};

use crate::file_index::FileIndex;
use crate::payloads::Payloads;
use crate::rows::sum_of;
use mt_fault::{FileError, Why, file_fault, marks_fault, offset_fault};
use mt_frame::{FrameError, FrameWhy, Frames, frames_of};
use mt_marks::{Marks, MarksError, read_mrk3};
use std::alloc::Global;

/// The payloads of a data file and its marks file, which has so many marks for each granule; or the first
/// fault: of the data file's frames, and then of its marks (docs/FORMAT.md, "The first fault").
pub fn read_payloads<'a>(
    alloc: Global,
    folder: &FileIndex<'a>,
    data_name: &[u8],
    marks_name: &[u8],
    per_granule: u64,
) -> Result<Payloads<'a>, FileError>
    requires some { 1 ≤ per_granule }
    requires few { per_granule ≤ MAX_PER_GRANULE }
    ensures reads { Shows payloads_in result
        (payloads_reading (indexed_folder folder.now) data_name.now marks_name.now per_granule) }
    ensures marked { IfOk result (λ payloads. payloads.marks.per_granule ≡ per_granule) }
{
    let file = folder.bytes_of(alloc, data_name)?;
    let frames = read_frames(alloc, data_name, file)?;
    let bytes = folder.bytes_of(alloc, marks_name)?;
    let marks = read_marks(alloc, marks_name, bytes, per_granule, &frames)?;
    Ok(Payloads {
        file,
        frames,
        marks,
    })
}

/// The same of the first marks file of a part, whose rows must sum to the count.
pub fn read_granules<'a>(
    alloc: Global,
    folder: &FileIndex<'a>,
    count: u64,
    data_name: &[u8],
    marks_name: &[u8],
    per_granule: u64,
) -> Result<Payloads<'a>, FileError>
    requires some { 1 ≤ per_granule }
    requires few { per_granule ≤ MAX_PER_GRANULE }
    ensures reads { Shows payloads_in result
        (granules_reading (indexed_folder folder.now) count data_name.now marks_name.now per_granule) }
    ensures marked { IfOk result (λ payloads. payloads.marks.per_granule ≡ per_granule) }
{
    let payloads = read_payloads(alloc, folder, data_name, marks_name, per_granule)?;
    if sum_of(payloads.granules()) != u128::from(count) {
        return Err(file_fault(alloc, marks_name, Why::Rows));
    }
    Ok(payloads)
}

/// Where the frames of a data file lie.
fn read_frames(alloc: Global, name: &[u8], file: &[u8]) -> Result<Frames, FileError>
    ensures reads { Gives result (blame (frame_fault name.now) (frames_in file.now)) }
    ensures bytes { IfOk result (λ frames. AreBytes file.now) }
{
    match frames_of(alloc, file) {
        Ok(frames) => Ok(frames),
        Err(FrameError::At { offset, why }) => {
            Err(offset_fault(alloc, name, offset, frame_why(why)))
        }
        Err(FrameError::NoMemory) => Err(FileError::NoMemory),
    }
}

/// What is wrong with a frame, as a fault's reason.
pub fn frame_why(why: FrameWhy) -> Why
    ensures { result ≡ frame_why why }
{
    match why {
        FrameWhy::Cut => Why::Cut,
        FrameWhy::Method => Why::Method,
        FrameWhy::Sizes => Why::Sizes,
        FrameWhy::TooLong => Why::TooLong,
    }
}

/// The marks of a data file that has these frames.
fn read_marks(
    alloc: Global,
    name: &[u8],
    bytes: &[u8],
    per_granule: u64,
    frames: &Frames,
) -> Result<Marks, FileError>
    requires some { 1 ≤ per_granule }
    requires few { per_granule ≤ MAX_PER_GRANULE }
    ensures reads { Gives result (blame (marks_fault name.now) (marks_reading per_granule frames.now bytes.now)) }
    ensures complete { IfOk result AreMarks }
{
    match read_mrk3(alloc, bytes, per_granule, frames) {
        Ok(marks) => Ok(marks),
        Err(MarksError::At { granule, why }) => Err(marks_fault(alloc, name, granule, why)),
        Err(MarksError::NoMemory) => Err(FileError::NoMemory),
    }
}
