//! Why files in memory weren't read.

ghost use Rattle.std.specs.Prelude.{◌≡◌, Some, None};
ghost use Rattle.mt_fault.specs.Faults.{file_fault, granule_fault, offset_fault};
ghost use Rattle.mt_fault.specs.Results.{IsFault};
ghost use Rattle.mt_fault.specs.declared.error.FileError.TheVariants as error;

use crate::fault::{Fault, Why};
use mt_types::{List, NoMemory};
use std::alloc::Global;
use std::error::Error;
use std::fmt;

/// Why files in memory weren't read.
#[derive(Debug, Drop)]
pub enum FileError {
    /// The first fault of the files.
    AtFault(Fault),
    /// Memory was refused.
    NoMemory,
}

impl fmt::Display for FileError {
    fn fmt<W: fmt::Write>(&self, f: &mut fmt::Formatter<W>) -> fmt::Result {
        match self {
            FileError::AtFault(fault) => write!(f, "{fault}"),
            FileError::NoMemory => write!(f, "out of memory"),
        }
    }
}

impl Error for FileError {}

impl From<NoMemory> for FileError {
    ghost from_gives = { λ _ e. e ≡ error.NoMemory };

    fn from(_error: NoMemory) -> FileError {
        FileError::NoMemory
    }
}

/// The fault of a whole file.
pub fn file_fault(alloc: Global, file: &[u8], why: Why) -> FileError
    ensures { IsFault (file_fault file.now why) result }
{
    fault_at(alloc, file, None, None, why)
}

/// A fault in a granule of a file.
pub fn granule_fault(alloc: Global, file: &[u8], granule: u64, why: Why) -> FileError
    ensures { IsFault (granule_fault file.now granule why) result }
{
    fault_at(alloc, file, Some(granule), None, why)
}

/// A fault at an offset of a file's frames, in bytes.
pub fn offset_fault(alloc: Global, file: &[u8], offset: u64, why: Why) -> FileError
    ensures { IsFault (offset_fault file.now offset why) result }
{
    fault_at(alloc, file, None, Some(offset), why)
}

/// A fault of a marks file, in the granule of an entry, or of the whole file.
pub fn marks_fault(alloc: Global, file: &[u8], granule: Option<u64>, why: Why) -> FileError
    ensures { IsFault (record { file = file.now; granule = granule; at = None; why = why }) result }
{
    fault_at(alloc, file, granule, None, why)
}

/// A fault of a file, in a granule or at an offset.
fn fault_at(
    alloc: Global,
    file: &[u8],
    granule: Option<u64>,
    at: Option<u64>,
    why: Why,
) -> FileError
    ensures { IsFault (record { file = file.now; granule = granule; at = at; why = why }) result }
{
    match List::of_bytes(alloc, file) {
        Ok(file) => FileError::AtFault(Fault {
            file,
            granule,
            at,
            why,
        }),
        Err(NoMemory) => FileError::NoMemory,
    }
}
