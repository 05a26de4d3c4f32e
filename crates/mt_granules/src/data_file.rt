//! Writing a data file and its marks file.

ghost use Rattle.std.specs.Prelude.{◌≡◌, ◌+◌, ◌*◌, ◌≤◌, ℕ, List as Seq, [], ◌∷◌, ◌++◌, length, replicate, IfOk, OnOk};
ghost use Rattle.mt_marks.specs.declared.marks.TheConstants.{MAX_PER_GRANULE};
ghost use Rattle.mt_defs.specs.WrittenFrames.{written_frames};
ghost use Rattle.mt_defs.specs.WrittenFrames as defined;
ghost use Rattle.mt_granules.specs.DataFiles.{AreRunsOf, all_runs, data_file_of, marked_data};

use mt_frame::put_frames;
use mt_marks::{Mark, Marks, write_marks};
use mt_types::{List, NoMemory};
use std::alloc::Global;

/// A data file in the making: payloads that are framed one by one, and a mark at the start of each.
#[derive(Drop)]
pub struct DataFile {
    /// The frames.
    pub bytes: List<u8>,
    /// The marks, one for each payload.
    pub marks: List<Mark>,
}

/// A data file and its marks file.
#[derive(Drop)]
pub struct MarkedData {
    /// The data file's frames.
    pub bytes: List<u8>,
    /// The marks file: the marks of each granule, and of the end.
    pub marks: List<u8>,
}

impl DataFile {
    /// The empty file, with room for so many bytes and marks.
    pub fn with_capacity(alloc: Global, bytes: usize, marks: usize) -> Result<DataFile, NoMemory>
        ensures { IfOk result (λ file. file ≡ data_file_of []) }
    {
        Ok(DataFile {
            bytes: List::with_capacity(alloc, bytes)?,
            marks: List::with_capacity(alloc, marks)?,
        })
    }

    /// Appends the frames of a payload, with a mark at their start. Where memory is refused the mark may stand
    /// there without the frames, and the file is to be dropped.
    pub fn put(&mut self, alloc: Global, payload: &[u8]) -> Result<(), NoMemory>
        ensures { OnOk result ((runs : Seq (Seq ℕ)) → self.old ≡ data_file_of runs
            → self.new ≡ data_file_of (runs ++ written_frames payload.now ∷ [])) }
    {
        self.marks.push(mark_at(self.bytes.len()))?;
        put_frames(alloc, payload, &mut self.bytes)?;
        Ok(())
    }

    /// The data file and the marks file of granules of so many rows, each with so many payloads.
    pub fn finish(
        self,
        alloc: Global,
        per_granule: usize,
        granules: &[u64],
    ) -> Result<MarkedData, NoMemory>
        requires some { 1 ≤ per_granule }
        requires few { per_granule ≤ MAX_PER_GRANULE }
        requires complete { length self.marks ≡ length granules.now * per_granule }
        ensures { IfOk result (λ files. (runs : Seq (Seq (Seq ℕ))) → AreRunsOf per_granule runs granules.now
            → self ≡ data_file_of (all_runs runs) → files ≡ marked_data per_granule runs granules.now) }
    {
        let DataFile { bytes, marks } = self;
        let places = with_end(marks, bytes.len(), per_granule)?;
        let marks = Marks {
            per_granule: per_granule as u64,
            places,
            rows: with_last(alloc, granules)?,
        };
        Ok(MarkedData {
            bytes,
            marks: write_marks(alloc, &marks)?,
        })
    }
}

/// The mark at the start of the frame at an offset.
fn mark_at(offset: usize) -> Mark
    ensures { result ≡ defined.mark_at offset }
{
    Mark {
        offset: offset as u64,
        inner: 0,
    }
}

/// The marks, and those of the end of the file.
fn with_end(marks: List<Mark>, end: usize, per_granule: usize) -> Result<List<Mark>, NoMemory>
    ensures { IfOk result (λ all. all ≡ marks ++ replicate per_granule (defined.mark_at end)) }
{
    let mut all = marks;
    for _ in 0..per_granule {
        all.push(mark_at(end))?;
    }
    Ok(all)
}

/// The rows of each entry: each granule's, and none for the end.
fn with_last(alloc: Global, granules: &[u64]) -> Result<List<u64>, NoMemory>
    ensures { IfOk result (λ rows. rows ≡ granules.now ++ 0 ∷ []) }
{
    let mut rows = Vec::with_capacity(alloc, granules.len().saturating_add(1))?;
    rows.extend_from_slice(granules)?;
    rows.push(0)?;
    Ok(List::of(rows))
}
