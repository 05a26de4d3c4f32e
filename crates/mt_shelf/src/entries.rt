//! Entries of a listing, in the order of their names.
ghost use Rattle.std.specs.Prelude.{◌≡◌, IfOk, OnOk};
ghost use Rattle.mt_shelf.specs.Files.{entries_below};
ghost use Rattle.mt_shelf.specs.Held.{pair_of, files_in, with_entry, with_entry_of};

use crate::Entry;
use crate::paths::name_below;
use mt_fault::FileBytes;
use mt_types::{List, NoMemory};
use std::alloc::Global;
use std::cmp::Ordering;

/// The files below a part, with their sizes, in the order of their names.
pub fn entries_below(alloc: Global, held: &[FileBytes], part: &[u8]) -> Result<Vec<Entry>, NoMemory>
    ensures { IfOk result (λ entries. entries.items ≡ entries_below part.now (files_in held.now)) }
{
    let mut entries = Vec::new(alloc);
    for i in (0..held.len()).rev() {
        add_entry(alloc, &mut entries, &held[i], part)?;
    }
    Ok(entries)
}

fn add_entry(
    alloc: Global,
    entries: &mut Vec<Entry>,
    file: &FileBytes,
    part: &[u8],
) -> Result<(), NoMemory>
    ensures { OnOk result (entries.new.items ≡ with_entry_of part.now (pair_of file.now) entries.old.items) }
{
    match name_below(part, file.name.as_slice()) {
        Some(name) => {
            let entry = Entry {
                name: List::of(name.to_vec(alloc)?),
                size: file.bytes.as_slice().len() as u64,
            };
            put_entry(entries, entry)
        }
        None => Ok(()),
    }
}

/// Puts an entry where its name belongs.
pub fn put_entry(entries: &mut Vec<Entry>, entry: Entry) -> Result<(), NoMemory>
    ensures { OnOk result (entries.new.items ≡ with_entry entry.name entry.size entries.old.items) }
{
    for i in 0..entries.len() {
        match entry.name.as_slice().cmp(entries[i].name.as_slice()) {
            Ordering::Less => {
                entries.insert(i, entry)?;
                return Ok(());
            }
            Ordering::Equal => {
                entries[i].size = entry.size;
                return Ok(());
            }
            Ordering::Greater => {}
        }
    }
    entries.push(entry)?;
    Ok(())
}
