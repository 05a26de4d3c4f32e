//! The entries in the files of a skip index.

ghost use Rattle.std.specs.Prelude.{◌≡◌, ◌*◌, ◌<◌, ◌^◌, ℕ, List as Seq, IfOk};
ghost use Rattle.mt_defs.specs.Folder.{folder_of};
ghost use Rattle.mt_defs.specs.Frames.{Block, IsFileOf, payload_of};
ghost use Rattle.mt_defs.specs.Part.{marks_ending};
ghost use Rattle.mt_frame.specs.FrameReading.{frames_reading, layout};
ghost use Rattle.mt_frame.specs.Results.{AreFramesOf};
ghost use Rattle.mt_files.specs.Results.{GivesEntries, GivesFramesOf, IsFrameError};
ghost use Rattle.mt_fault.specs.Faults.{blame};
ghost use Rattle.mt_granules.specs.FileFaults.{frame_fault, frame_why};
ghost use Rattle.mt_files.specs.SkipMarks.{has_files, index_entries};

use crate::files::{bytes_of, find};
use crate::skip_marks::{read_marks, read_positions};
use mt_defs::HEADER_BYTES;
use mt_fault::{FileBytes, FileError, Why, offset_fault};
use mt_frame::{FrameError, Frames, frames_of};
use mt_granules::frame_why;
use mt_names::{skip_data_name, skip_marks_name};
use mt_table::Skip;
use mt_types::{List, NoMemory};
use std::alloc::Global;

/// The entries of a skip index: what stands from each position to the next, or to the end.
#[derive(Drop)]
pub struct SkipEntries {
    /// All entries, one after another.
    pub payload: List<u8>,
    /// Where each begins.
    pub positions: List<u64>,
}

/// Whether a skip index is there: its data file or its marks file is; `compact` is the part's layout.
pub fn has_files(
    alloc: Global,
    files: &[FileBytes],
    compact: bool,
    skip: &Skip,
) -> Result<bool, NoMemory>
    ensures { IfOk result (λ has. has ≡ has_files (folder_of files.now) (marks_ending compact) skip.now) }
{
    let data = skip_data_name(alloc, skip)?;
    let marks = skip_marks_name(alloc, skip, compact)?;
    let has_data = find(files, data.as_slice()).is_some();
    let has_marks = find(files, marks.as_slice()).is_some();
    Ok(has_data || has_marks)
}

/// The entries of a skip index, so many; `compact` is the part's layout.
pub fn read_entries(
    alloc: Global,
    files: &[FileBytes],
    compact: bool,
    skip: &Skip,
    count: usize,
) -> Result<SkipEntries, FileError>
    requires { count * skip.now.granularity < 2 ^ 64 }
    ensures { GivesEntries result (index_entries (folder_of files.now) (marks_ending compact) skip.now count) }
{
    let (Ok(data_name), Ok(marks_name)) = (
        skip_data_name(alloc, skip),
        skip_marks_name(alloc, skip, compact),
    ) else {
        return Err(FileError::NoMemory);
    };
    let data = bytes_of(alloc, files, data_name.as_slice())?;
    let frames = read_frames(alloc, data_name.as_slice(), data)?;
    let bytes = bytes_of(alloc, files, marks_name.as_slice())?;
    let marks = read_marks(alloc, marks_name.as_slice(), count, bytes)?;
    let positions = read_positions(
        alloc,
        marks_name.as_slice(),
        skip.granularity,
        &frames,
        marks.as_slice(),
    )?;
    match payload_of(alloc, data, &frames) {
        Ok(payload) => Ok(SkipEntries { payload, positions }),
        Err(_) => Err(FileError::NoMemory),
    }
}

/// The frames of a data file of this name.
fn read_frames(alloc: Global, file: &[u8], bytes: &[u8]) -> Result<Frames, FileError>
    ensures { GivesFramesOf bytes.now result (blame (frame_fault file.now) (frames_reading bytes.now)) }
{
    match frames_of(alloc, bytes) {
        Ok(frames) => Ok(frames),
        Err(error) => Err(frame_error(alloc, file, error)),
    }
}

/// Why frames weren't read, as a fault of a file of this name.
fn frame_error(alloc: Global, file: &[u8], error: FrameError) -> FileError
    ensures { IsFrameError file.now error result }
{
    match error {
        FrameError::At { offset, why } => offset_fault(alloc, file, offset, frame_why(why)),
        FrameError::NoMemory => FileError::NoMemory,
    }
}

/// The payload of a file of these frames.
fn payload_of(alloc: Global, file: &[u8], frames: &Frames) -> Result<List<u8>, NoMemory>
    requires { AreFramesOf frames.now file.now }
    ensures { IfOk result (λ payload. (blocks : Seq Block) → IsFileOf blocks file.now
        → frames.now.list ≡ layout blocks → payload ≡ payload_of blocks) }
{
    let mut payload = List::with_capacity(alloc, file.len())?;
    let mut rest = file;
    for frame in frames.list.as_slice() {
        let (_, bytes) = rest.split_at(HEADER_BYTES as usize);
        let (piece, after) = bytes.split_at(frame.payload as usize);
        payload.append(piece)?;
        rest = after;
    }
    Ok(payload)
}
