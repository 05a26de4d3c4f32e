//! The rules of a marks file, entry by entry.

ghost use Rattle.std.specs.Prelude.{◌≡◌, ◌+◌, Some, None, if◌then◌else◌};
ghost use Rattle.mt_marks.specs.Entries.{AreMarks, entries_of};
ghost use Rattle.mt_marks.specs.MarkReading.{last_reading, are_rows, rules_reading};
ghost use Rattle.mt_marks.specs.Results.{GivesRules};

use crate::fault::MarksError;
use crate::marks::Marks;
use crate::rules::{Former, check_mark};
use mt_defs::Mark;
use mt_fault::Why;
use mt_frame::Frames;

/// Whether the marks keep the rules, or the first that is broken, with its entry.
pub(crate) fn check_marks(marks: &Marks, frames: &Frames) -> Result<(), MarksError>
    requires { AreMarks marks.now }
    ensures { GivesRules result (rules_reading frames.now 0 0 None (entries_of marks.now)) }
{
    let per_granule = marks.per_granule as usize;
    let rows = marks.rows.as_slice();
    let mut rest = marks.places.as_slice();
    let mut total = 0;
    let mut former = None;
    for index in 0..rows.len() {
        let granule = index as u64;
        let last = index + 1 == rows.len();
        let Some(sum) = sum_of_rows(last, rows[index], total) else {
            return Err(fault(granule, Why::Rows));
        };
        let (entry, later) = rest.split_at(per_granule);
        match check_entry(frames, last, former, entry) {
            Ok(here) => former = here,
            Err(why) => return Err(fault(granule, why)),
        }
        total = sum;
        rest = later;
    }
    Ok(())
}

fn fault(granule: u64, why: Why) -> MarksError
    ensures { result ≡ MarksError.At (Some granule) why }
{
    MarksError::At {
        granule: Some(granule),
        why,
    }
}

/// The rows up to an entry, unless its rows break their rule: none in the last entry.
fn sum_of_rows(last: bool, rows: u64, total: u64) -> Option<u64>
    ensures { result ≡ (if are_rows last rows (total + rows) then Some (total + rows) else None) }
{
    if last {
        return if rows == 0 { Some(total) } else { None };
    }
    if rows == 0 {
        return None;
    }
    total.checked_add(rows)
}

/// The last mark of an entry with its position, or the first rule that its marks break.
fn check_entry(
    frames: &Frames,
    last: bool,
    former: Option<Former>,
    entry: &[Mark],
) -> Result<Option<Former>, Why>
    ensures { result ≡ last_reading frames.now last former entry.now }
{
    let mut before = former;
    for mark in entry {
        match check_mark(frames, last, before, mark) {
            Ok(here) => before = Some(here),
            Err(why) => return Err(why),
        }
    }
    Ok(before)
}
