//! Writing a marks file.

ghost use Rattle.std.specs.Prelude.{◌≡◌, ◌++◌, IfOk, OnOk};
ghost use Rattle.mt_defs.specs.Marks.{mark_bytes, entry_bytes, marks_bytes};
ghost use Rattle.mt_marks.specs.Entries.{AreMarks, entry_marks};

use crate::marks::Marks;
use mt_defs::Mark;
use mt_types::{List, NoMemory};
use std::alloc::Global;

/// The bytes of a mark, and of an entry's number of rows.
const MARK_BYTES: usize = 16;

const ROWS_BYTES: usize = 8;

/// The bytes of the marks file that has these entries.
pub fn write_marks(alloc: Global, marks: &Marks) -> Result<List<u8>, NoMemory>
    requires { AreMarks marks.now }
    ensures { IfOk result (λ bytes. bytes ≡ marks_bytes (entry_marks marks.now) marks.now.rows) }
{
    let mut out = List::with_capacity(alloc, file_len(marks))?;
    let mut rest = marks.places.as_slice();
    for rows in marks.rows.as_slice() {
        let (entry, later) = rest.split_at(marks.per_granule as usize);
        append_entry(entry, *rows, &mut out)?;
        rest = later;
    }
    Ok(out)
}

/// The length of the file, in bytes, for which room is made at once.
fn file_len(marks: &Marks) -> usize {
    let places = marks.places.len().saturating_mul(MARK_BYTES);
    places.saturating_add(marks.rows.len().saturating_mul(ROWS_BYTES))
}

fn append_entry(entry: &[Mark], rows: u64, out: &mut List<u8>) -> Result<(), NoMemory>
    ensures { OnOk result (out.new ≡ out.old ++ entry_bytes entry.now rows) }
{
    for mark in entry {
        append_mark(mark, out)?;
    }
    out.append(&rows.to_le_bytes())?;
    Ok(())
}

fn append_mark(mark: &Mark, out: &mut List<u8>) -> Result<(), NoMemory>
    ensures { OnOk result (out.new ≡ out.old ++ mark_bytes mark.now) }
{
    out.append(&mark.offset.to_le_bytes())?;
    out.append(&mark.inner.to_le_bytes())?;
    Ok(())
}
