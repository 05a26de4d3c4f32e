//! The numbers of a marks file as they stand, without frames and without the rules.

ghost use Rattle.std.specs.Prelude.{◌≡◌, ◌≤◌, ◌*◌, ◌+◌, ◌++◌, length, take, drop, IfOk, IfSome, OnOk, option_map};
ghost use Rattle.std.specs.Int.{w64, from_le_bytes};
ghost use Rattle.mt_marks.specs.Entries.{AreMarks};
ghost use Rattle.mt_marks.specs.MarkReading.{u64_at, entry_len, marks_from, entries_reading, marks_of};

use crate::marks::{MAX_PER_GRANULE, Marks};
use mt_defs::Mark;
use mt_types::{List, NoMemory};
use std::alloc::Global;

/// The entries of a marks file; none where its size isn't a whole number of entries. It reads the marks
/// of skip indexes too, with 1.
pub fn raw_marks(alloc: Global, bytes: &[u8], per_granule: u64) -> Result<Option<Marks>, NoMemory>
    requires some { 1 ≤ per_granule }
    requires few { per_granule ≤ MAX_PER_GRANULE }
    ensures found { IfOk result (λ marks. marks ≡ option_map (marks_of per_granule) (entries_reading per_granule bytes.now)) }
    ensures complete { IfOk result (λ marks. IfSome marks AreMarks) }
{
    let per = per_granule as usize;
    let entry_len = 16 * per + 8;
    if bytes.len() % entry_len != 0 {
        return Ok(None);
    }
    let entries = bytes.len() / entry_len;
    let mut places = List::with_capacity(alloc, entries.saturating_mul(per))?;
    let mut rows = List::with_capacity(alloc, entries)?;
    let mut rest = bytes;
    for _ in 0..entries {
        rows.push(append_marks(rest, per, &mut places)?)?;
        rest = bytes_after(rest, entry_len);
    }
    Ok(Some(Marks {
        per_granule,
        places,
        rows,
    }))
}

/// Appends the marks of the entry at the start of some bytes, and returns its rows.
fn append_marks(bytes: &[u8], per_granule: usize, places: &mut List<Mark>) -> Result<u64, NoMemory>
    requires { entry_len per_granule ≤ length bytes.now }
    ensures places { OnOk result (places.new ≡ places.old ++ marks_from per_granule bytes.now) }
    ensures rows { IfOk result (λ rows. rows ≡ u64_at (16 * per_granule) bytes.now) }
{
    let mut rest = bytes;
    for _ in 0..per_granule {
        places.push(Mark {
            offset: number_at(rest, 0),
            inner: number_at(rest, 8),
        })?;
        rest = bytes_after(rest, 16);
    }
    Ok(number_at(bytes, 16 * per_granule))
}

fn bytes_after(bytes: &[u8], count: usize) -> &[u8]
    requires { count ≤ length bytes.now }
    ensures { result.now ≡ drop count bytes.now }
{
    &bytes[count..]
}

/// The little-endian number of eight bytes at an offset.
fn number_at(bytes: &[u8], offset: usize) -> u64
    requires { offset + 8 ≤ length bytes.now }
    ensures { result ≡ u64_at offset bytes.now }
{
    let mut number = [0u8; 8];
    number.copy_from_slice(eight_at(bytes, offset));
    u64::from_le_bytes(number)
}

fn eight_at(bytes: &[u8], offset: usize) -> &[u8]
    requires { offset + 8 ≤ length bytes.now }
    ensures { result.now ≡ take 8 (drop offset bytes.now) }
{
    &bytes[offset..offset + 8]
}
