//! The entries of a marks file in memory, whose rows are within the limit.

ghost use Rattle.std.specs.Prelude.{◌≡◌, ◌≤◌, ◌-◌, ℕ, IfOk, length, nat_le, sum, take};
ghost use Rattle.mt_table.specs.declared.limits.TheConstants.{MAX_ROWS as limit};
ghost use Rattle.mt_marks.specs.declared.marks.TheConstants.{MAX_PER_GRANULE};
ghost use Rattle.mt_marks.specs.Entries.{AreMarks};
ghost use Rattle.mt_files.specs.ShelfResults.{ReadFails};
ghost use Rattle.mt_granules.specs.PayloadReading.{granules_of};
ghost use Rattle.mt_marked_file.specs.Opening.{ShowsFrom, counts_check, raw_reading};

use crate::error::file_error;
use mt_fault::Why;
use mt_marks::{Marks, raw_marks};
use mt_shelf::ReadError;
use mt_table::MAX_ROWS;
use mt_types::NoMemory;
use std::alloc::Global;

/// The entries of a marks file: at least one granule, and no more rows than a part may have.
#[tactic(auto, using(crate::proofs::CheckLemmas::raw_found, crate::proofs::CheckLemmas::raw_none, crate::proofs::CheckLemmas::fault_kept))]
pub(crate) fn marks_in(
    alloc: Global,
    name: &[u8],
    bytes: &[u8],
    per_granule: u64,
) -> Result<Marks, ReadError>
    requires some { 1 ≤ per_granule }
    requires few { per_granule ≤ MAX_PER_GRANULE }
    ensures reads { ShowsFrom (λ marks. marks) result (raw_reading name.now per_granule bytes.now) }
    ensures complete { IfOk result AreMarks }
    ensures some { IfOk result (λ marks. 2 ≤ length marks.rows) }
    ensures few { IfOk result (λ marks. sum (granules_of marks) ≤ limit) }
    ensures cause { (n : ℕ) → ReadFails n n result }
{
    match raw_marks(alloc, bytes, per_granule) {
        Ok(Some(marks)) => checked(alloc, name, marks),
        Ok(None) => Err(file_error(alloc, name, Why::Length)),
        Err(NoMemory) => Err(ReadError::NoMemory),
    }
}

/// The entries, unless there is no granule or there are too many rows.
#[tactic(auto, using(crate::proofs::CheckLemmas::no_granule, crate::proofs::CheckLemmas::many_rows, crate::proofs::CheckLemmas::all_there, crate::proofs::CheckLemmas::within))]
fn checked(alloc: Global, name: &[u8], marks: Marks) -> Result<Marks, ReadError>
    requires complete { AreMarks marks }
    ensures reads { ShowsFrom (λ found. found) result (counts_check name.now marks) }
    ensures complete { IfOk result AreMarks }
    ensures some { IfOk result (λ found. 2 ≤ length found.rows) }
    ensures few { IfOk result (λ found. sum (granules_of found) ≤ limit) }
    ensures cause { (n : ℕ) → ReadFails n n result }
{
    if marks.rows.len() < 2 {
        return Err(file_error(alloc, name, Why::Length));
    }
    if !has_few_rows(&marks) {
        return Err(file_error(alloc, name, Why::TooLong));
    }
    Ok(marks)
}

/// Whether the granules have no more rows than a part may have.
fn has_few_rows(marks: &Marks) -> bool
    requires { 1 ≤ length marks.now.rows }
    ensures { result ≡ nat_le (sum (granules_of marks.now)) limit }
{
    are_few(but_last(marks.rows.as_slice()))
}

/// All numbers but the last.
fn but_last(counts: &[u64]) -> &[u64]
    requires { 1 ≤ length counts.now }
    ensures { result.now ≡ take (length counts.now - 1) counts.now }
{
    &counts[..counts.len() - 1]
}

/// Whether numbers are no more together than the rows that a part may have.
#[tactic(auto, using(crate::proofs::CountLemmas::few_next, crate::proofs::CountLemmas::few_not, crate::proofs::CountLemmas::few_all))]
fn are_few(counts: &[u64]) -> bool
    ensures { result ≡ nat_le (sum counts.now) limit }
{
    let mut left = MAX_ROWS as u64;
    for count in counts {
        if *count > left {
            return false;
        }
        left -= *count;
    }
    true
}
