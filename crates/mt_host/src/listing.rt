//! The files below a folder, read without recursion.
ghost use Rattle.std.specs.Prelude.{◌≡◌, ◌≤◌, ◌+◌, IfOk, IsTrue, true, map, length, drop, vec_len};
ghost use Rattle.std.specs.List.{list_all};
ghost use Rattle.std.specs.Ordering.{nat_cmp};
ghost use Rattle.std.specs.Cmp.Lexicographic.{slice_cmp};
ghost use Rattle.std.specs.FinMap.{is_sorted};
ghost use Rattle.mt_shelf.specs.Files.{IsListing, is_file_name};
ghost use Rattle.mt_host.specs.Rising.{is_before_others};

use crate::draft::{is_draft_name, path_of};
use mt_shelf::{Entry, is_file_name};
use mt_types::List;
use std::alloc::Global;
use std::cmp::Ordering;
use std::io::ErrorKind;
use std::rt::Files;
use std::{fs, io};

/// How many folders may lie between a part and a file of it.
pub const MAX_DEPTH: u8 = 8;

/// How many names below a part are read, those of folders included.
pub const MAX_NAMES: u32 = 1_000_000;

// A folder that is still to be read.
#[derive(Drop)]
struct Folder {
    path: String,
    // Its name below the part, and a `/`; nothing for the part itself.
    prefix: String,
    // How many folders more may lie below it.
    depth: u8,
}

// What was found, and what is still to be read.
#[derive(Drop)]
struct Walk {
    entries: Vec<Entry>,
    folders: Vec<Folder>,
    names: u32,
}

/// The files below a part in byte order. A path that is no folder has none.
pub fn list_folder<R: Files + AllocGlobal + Clone + Drop>(
    rt: &R,
    part: &str,
) -> io::Result<Vec<Entry>>
    ensures { IfOk result (λ entries. IsListing entries.items) }
{
    let mut walk = Walk::of(rt, part)?;
    while let Some(folder) = walk.folders.pop() {
        walk.read_folder(rt, &folder)?;
    }
    let Walk { mut entries, .. } = walk;
    entries.sort_by(|a, b| a.name.as_slice().cmp(b.name.as_slice()))?;
    if is_listing(entries.as_slice()) {
        Ok(entries)
    } else {
        Err(io::Error::from(ErrorKind::InvalidData))
    }
}

/// Whether a file lies below a part.
pub fn has_file<R: Files + AllocGlobal + Clone + Drop>(rt: &R, part: &str) -> io::Result<bool> {
    let mut walk = Walk::of(rt, part)?;
    while let Some(folder) = walk.folders.pop() {
        walk.read_folder(rt, &folder)?;
        if !walk.entries.is_empty() {
            return Ok(true);
        }
    }
    Ok(false)
}

impl Walk {
    // Begins at a part, which need not be there.
    fn of<R: Files + AllocGlobal>(rt: &R, part: &str) -> io::Result<Walk> {
        let alloc = rt.alloc();
        let mut folders = Vec::new(alloc);
        if is_folder(rt, part)? {
            folders.push(Folder {
                path: String::from_str(alloc, part)?,
                prefix: String::new(alloc),
                depth: MAX_DEPTH,
            })?;
        }
        Ok(Walk {
            entries: Vec::new(alloc),
            folders,
            names: MAX_NAMES,
        })
    }

    fn read_folder<R: Files + AllocGlobal + Clone + Drop>(
        &mut self,
        rt: &R,
        folder: &Folder,
    ) -> io::Result<()>
        ensures { vec_len self.new.folders + self.new.names ≤ vec_len self.old.folders + self.old.names }
    {
        for found in fs::read_dir(rt, folder.path.as_str())? {
            let found = found?;
            self.add(rt, folder, found.file_name())?;
        }
        Ok(())
    }

    fn add<R: Files + AllocGlobal>(&mut self, rt: &R, folder: &Folder, name: &str) -> io::Result<()>
        ensures { vec_len self.new.folders + self.new.names ≤ vec_len self.old.folders + self.old.names }
    {
        if self.names == 0 {
            return Err(io::Error::from(ErrorKind::InvalidData));
        }
        self.names -= 1;
        let alloc = rt.alloc();
        let path = path_of(alloc, folder.path.as_str(), name)?;
        let mut below = String::from_str(alloc, folder.prefix.as_str())?;
        below.push_str(name)?;
        let data = fs::symlink_metadata(rt, path.as_str())?;
        if data.is_file() {
            self.entries.push(Entry {
                name: List::of(below.into_bytes()),
                size: data.len(),
            })?;
            return Ok(());
        }
        if data.is_dir() && is_draft_name(name) {
            return Ok(());
        }
        if !data.is_dir() || folder.depth == 0 {
            return Err(io::Error::from(ErrorKind::InvalidData));
        }
        below.push_str("/")?;
        self.folders.push(Folder {
            path,
            prefix: below,
            depth: folder.depth - 1,
        })?;
        Ok(())
    }
}

fn is_folder<R: Files>(rt: &R, path: &str) -> io::Result<bool> {
    match fs::metadata(rt, path) {
        Ok(data) => Ok(data.is_dir()),
        Err(error) if is_missing(&error) => Ok(false),
        Err(error) => Err(error),
    }
}

/// Whether an error says that nothing stands at a path.
pub fn is_missing(error: &io::Error) -> bool {
    matches!(error.kind(), ErrorKind::NotFound | ErrorKind::NotADirectory)
}

// Whether the names are in UTF-8, of the form of names, and rise.
fn is_listing(entries: &[Entry]) -> bool
    ensures { result ≡ true → IsListing entries.now }
{
    are_names(entries) & is_rising(entries)
}

fn are_names(entries: &[Entry]) -> bool
    ensures { result ≡ list_all (λ e. is_file_name e.name) entries.now }
{
    entries
        .iter()
        .all(|entry| is_file_name(entry.name.as_slice()))
}

fn is_rising(entries: &[Entry]) -> bool
    ensures { result ≡ true → IsTrue (is_sorted (slice_cmp nat_cmp) (map (λ e. (e.name, e.size)) entries.now)) }
{
    for i in (0..entries.len()).rev() {
        if !is_before(&entries[i], rest_from(entries, i + 1)) {
            return false;
        }
    }
    true
}

// Whether an entry comes before the first of a listing.
fn is_before(entry: &Entry, listing: &[Entry]) -> bool
    ensures { result ≡ is_before_others entry.now listing.now }
{
    match listing {
        [] => true,
        [first, ..] => entry.name.as_slice().cmp(first.name.as_slice()) == Ordering::Less,
    }
}

fn rest_from(entries: &[Entry], index: usize) -> &[Entry]
    requires { index ≤ length entries.now }
    ensures { result.now ≡ drop index entries.now }
{
    &entries[index..]
}
