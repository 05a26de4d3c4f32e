//! A shelf in memory with calls that fail.
ghost use Rattle.std.specs.Prelude.{◌≡◌, ◌<◌, Some, true, false};
ghost use Rattle.mt_shelf.specs.Held.{files_in, all_paths, AllDiffer};
ghost use Rattle.mt_shelf.specs.State.{files_of};

use crate::failures::Failures;
use crate::{CallError, Entry, Shelf, SureShelf};
use mt_fault::FileBytes;
use mt_types::List;
use std::alloc::Global;

/// Files in memory, where the calls fail that are to.
#[derive(Drop)]
pub struct MemShelf {
    shelf: SureShelf,
    failures: Failures,
}

impl MemShelf {
    /// Holds the files, whose names are different paths. `failing` numbers the calls that fail,
    /// from 1 over all calls; a read gives at most `most` bytes.
    pub fn new(alloc: Global, files: List<FileBytes>, failing: List<u64>, most: usize) -> MemShelf
        requires most { 0 < most }
        requires paths { all_paths files ≡ true }
        requires names { AllDiffer files }
        ensures files { files_of (⟦<MemShelf as Shelf>⟧.state result) ≡ Some (files_in files) }
        ensures begun { (⟦<MemShelf as Shelf>⟧.state result).begun ≡ false }
        ensures taken { (⟦<MemShelf as Shelf>⟧.state result).taken ≡ 0 }
        ensures faults { ⟦<MemShelf as Shelf>⟧.faults result ≡ 0 }
    {
        MemShelf {
            shelf: SureShelf::new(alloc, files, most),
            failures: Failures::new(failing),
        }
    }

    /// Shows each file once, in no stated order.
    pub fn held(&self) -> &[FileBytes]
        ensures files { files_of (⟦<MemShelf as Shelf>⟧.state self.now) ≡ Some (files_in result.now) }
        ensures once { AllDiffer result.now }
    {
        self.shelf.held()
    }

    /// The bytes that reads gave, together.
    pub fn bytes_taken(&self) -> u64
        ensures { result ≡ (⟦<MemShelf as Shelf>⟧.state self.now).taken }
    {
        self.shelf.bytes_taken()
    }
}

impl Shelf for MemShelf {
    ghost use Rattle.mt_shelf.specs.KeptPaths.{known_paths};

    ghost state = { λ s. ⟦<SureShelf as Shelf>⟧.state s.shelf };

    ghost faults = { λ s. s.failures.faults };

    ghost paths = { λ s. known_paths s.shelf.files.items s.shelf.paths };

    ghost bytes = { λ s. s.shelf.bytes };

    fn size(&mut self, path: &str) -> Result<Option<u64>, CallError> {
        if self.failures.fails_next() {
            return Err(CallError::Failed);
        }
        self.shelf.size(path)
    }

    fn list(&mut self, part: &str) -> Result<Option<List<Entry>>, CallError> {
        if self.failures.fails_next() {
            return Err(CallError::Failed);
        }
        self.shelf.list(part)
    }

    fn exists(&mut self, part: &str) -> Result<bool, CallError> {
        if self.failures.fails_next() {
            return Err(CallError::Failed);
        }
        self.shelf.exists(part)
    }

    fn read(&mut self, path: &str, at: u64, into: &mut [u8]) -> Result<usize, CallError> {
        if self.failures.fails_next() {
            return Err(CallError::Failed);
        }
        self.shelf.read(path, at, into)
    }

    fn begin(&mut self, part: &str) -> Result<(), CallError> {
        if self.failures.fails_next() {
            self.shelf.close();
            return Err(CallError::Failed);
        }
        self.shelf.begin(part)
    }

    fn put(&mut self, name: &str, bytes: &[u8]) -> Result<(), CallError> {
        if self.failures.fails_next() {
            self.shelf.close();
            return Err(CallError::Failed);
        }
        self.shelf.put(name, bytes)
    }

    fn publish(&mut self) -> Result<(), CallError> {
        if self.failures.fails_next() {
            self.shelf.close();
            return Err(CallError::Failed);
        }
        self.shelf.publish()
    }
}
