//! Faults of whole files, as errors of a reader that asks a shelf too.

ghost use Rattle.mt_fault.specs.Faults.{file_fault};
ghost use Rattle.mt_marked_file.specs.Opening.{IsReadFault};

use mt_fault::{Why, file_fault};
use mt_shelf::ReadError;
use std::alloc::Global;

/// The fault of a whole file.
#[tactic(auto, using(crate::proofs::OpeningLemmas::fault_read))]
pub(crate) fn file_error(alloc: Global, name: &[u8], why: Why) -> ReadError
    ensures { IsReadFault (file_fault name.now why) result }
{
    ReadError::from(file_fault(alloc, name, why))
}
