//! A shelf in memory that never fails.
ghost use Rattle.std.specs.Prelude.{◌≡◌, ◌<◌, ◌≤◌, [], Some, None, true, false, IsTrue, OnOk, OnErr, IfOk, IfSome, length, vec_len};
ghost use Rattle.std.specs.List.{list_all};
ghost use Rattle.mt_shelf.specs.Paths.{is_path, joined_path};
ghost use Rattle.mt_shelf.specs.Files.{is_file_path};
ghost use Rattle.mt_shelf.specs.Bytes.{HasBytes, AllHoldBytes};
ghost use Rattle.mt_shelf.specs.Held.{files_in, all_paths, AllDiffer, draft_in, is_put};
ghost use Rattle.mt_shelf.specs.State.{State, Drops, files_of};

use crate::bytes::{copy_bytes, copy_some, know_files, rest_from};
use crate::entries::entries_below;
use crate::held::{position_of, set_files, stands};
use crate::paths::joined_path;
use crate::{CallError, Entry, Shelf};
use mt_fault::FileBytes;
use mt_types::{List, NoMemory};
use std::alloc::Global;

/// Files in memory, which never fail.
#[derive(Drop)]
pub struct SureShelf {
    alloc: Global,
    files: Vec<FileBytes>,
    target: Vec<u8>,
    draft: Vec<FileBytes>,
    begun: bool,
    taken: u64,
    most: usize,
    ghost some: { 0 < most },
    ghost paths: { all_paths files.items ≡ true },
    ghost names: { AllDiffer files.items },
    ghost bytes: { HasBytes (files_in files.items) },
    ghost puts: { list_all (is_put target.items) draft.items ≡ true },
    ghost draft_bytes: { AllHoldBytes draft.items },
    ghost target_path: { begun ≡ true → is_file_path target.items ≡ true },
}

impl SureShelf {
    /// Holds the files, whose names are different paths; a read gives at most `most` bytes.
    pub fn new(alloc: Global, files: List<FileBytes>, most: usize) -> SureShelf
        requires most { 0 < most }
        requires paths { all_paths files ≡ true }
        requires names { AllDiffer files }
        ensures files { files_of (⟦<SureShelf as Shelf>⟧.state result) ≡ Some (files_in files) }
        ensures begun { (⟦<SureShelf as Shelf>⟧.state result).begun ≡ false }
        ensures taken { (⟦<SureShelf as Shelf>⟧.state result).taken ≡ 0 }
        ensures faults { ⟦<SureShelf as Shelf>⟧.faults result ≡ 0 }
    {
        know_files(files.as_slice());
        SureShelf {
            alloc,
            files: files.into_vec(),
            target: Vec::new(alloc),
            draft: Vec::new(alloc),
            begun: false,
            taken: 0,
            most,
        }
    }

    /// Shows each file once, in no stated order.
    pub fn held(&self) -> &[FileBytes]
        ensures files { files_of (⟦<SureShelf as Shelf>⟧.state self.now) ≡ Some (files_in result.now) }
        ensures once { AllDiffer result.now }
    {
        self.files.as_slice()
    }

    /// The bytes that reads gave, together.
    pub fn bytes_taken(&self) -> u64
        ensures { result ≡ (⟦<SureShelf as Shelf>⟧.state self.now).taken }
    {
        self.taken
    }

    // Closes the draft, if one is open, and forgets its files.
    pub(crate) fn close(&mut self)
        ensures drops { Drops (⟦<SureShelf as Shelf>⟧.state self.old) (⟦<SureShelf as Shelf>⟧.state self.new) }
        ensures files { self.new.files ≡ self.old.files }
        ensures emptied { self.new.draft.items ≡ [] }
    {
        self.begun = false;
        self.draft.clear();
    }
}

impl Shelf for SureShelf {
    ghost use Rattle.std.specs.Prelude.{Some};
    ghost use Rattle.mt_shelf.specs.Held.{files_in, draft_in};
    ghost use Rattle.mt_shelf.specs.KeptPaths.{known_paths};

    ghost state = { λ s. record { content = Some (record { files = files_in s.files.items; target = s.target.items; draft = draft_in s.target.items s.draft.items }); begun = s.begun; taken = s.taken } };

    ghost faults = { λ _. 0 };

    ghost paths = { λ s. known_paths s.files.items s.paths };

    ghost bytes = { λ s. s.bytes };

    fn size(&mut self, path: &str) -> Result<Option<u64>, CallError> {
        match position_of(self.files.as_slice(), path.as_bytes()) {
            Some(i) => Ok(Some(self.files[i].bytes.as_slice().len() as u64)),
            None => Ok(None),
        }
    }

    fn list(&mut self, part: &str) -> Result<Option<List<Entry>>, CallError> {
        let entries = entries_below(self.alloc, self.files.as_slice(), part.as_bytes())?;
        if entries.is_empty() {
            Ok(None)
        } else {
            Ok(Some(List::of(entries)))
        }
    }

    fn exists(&mut self, part: &str) -> Result<bool, CallError> {
        Ok(stands(self.files.as_slice(), part.as_bytes()))
    }

    fn read(&mut self, path: &str, at: u64, into: &mut [u8]) -> Result<usize, CallError> {
        match position_of(self.files.as_slice(), path.as_bytes()) {
            Some(i) => {
                let rest = rest_from(self.files[i].bytes.as_slice(), at as usize);
                let count = copy_some(rest, self.most, into);
                self.taken = self.taken.saturating_add(count as u64);
                Ok(count)
            }
            None => unreachable!(),
        }
    }

    fn begin(&mut self, part: &str) -> Result<(), CallError> {
        self.close();
        self.target = copy_bytes(self.alloc, part.as_bytes())?;
        self.begun = true;
        Ok(())
    }

    fn put(&mut self, name: &str, bytes: &[u8]) -> Result<(), CallError> {
        let Ok(file) = file_of(self.alloc, self.target.as_slice(), name.as_bytes(), bytes) else {
            self.close();
            return Err(CallError::NoMemory);
        };
        if let Err(_) = self.draft.push(file) {
            self.close();
            return Err(CallError::NoMemory);
        }
        Ok(())
    }

    fn publish(&mut self) -> Result<(), CallError> {
        self.begun = false;
        match self.files.reserve(self.draft.len()) {
            Ok(()) => {
                set_files(&mut self.files, &mut self.draft);
                Ok(())
            }
            Err(_) => {
                self.close();
                Err(CallError::NoMemory)
            }
        }
    }
}

// A file of a draft, by its whole path.
fn file_of(alloc: Global, target: &[u8], name: &[u8], bytes: &[u8]) -> Result<FileBytes, NoMemory>
    ensures name { IfOk result (λ file. file.name ≡ joined_path target.now name.now) }
    ensures bytes { IfOk result (λ file. file.bytes ≡ bytes.now) }
{
    let path = joined_path(alloc, target, name)?;
    let copy = copy_bytes(alloc, bytes)?;
    Ok(FileBytes {
        name: List::of(path),
        bytes: List::of(copy),
    })
}
