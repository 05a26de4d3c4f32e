//! Files by different paths, as a shelf in memory is made of.
ghost use Rattle.std.specs.Prelude.{◌≡◌, [], OnOk, OnErr, IsErrOf, true, false};
ghost use Rattle.std.specs.FinMap.{insert};
ghost use Rattle.mt_shelf.specs.Paths.{is_path};
ghost use Rattle.mt_shelf.specs.Held.{files_in, all_paths, AllDiffer};
ghost use Rattle.mt_shelf.specs.declared.file_set.PutError.TheVariants.{NotAPath};

use crate::held::set_file;
use crate::is_path;
use mt_fault::FileBytes;
use mt_types::{List, NoMemory};
use std::alloc::Global;
use std::error::Error;
use std::fmt;

/// Why a file wasn't put into a set.
#[derive(Clone, Copy, Debug)]
pub enum PutError {
    /// The name isn't a path.
    NotAPath,
    /// Memory was refused.
    NoMemory,
}

impl fmt::Display for PutError {
    fn fmt<W: fmt::Write>(&self, f: &mut fmt::Formatter<W>) -> fmt::Result {
        match self {
            PutError::NotAPath => write!(f, "not a path"),
            PutError::NoMemory => write!(f, "no memory"),
        }
    }
}

impl Error for PutError {}

/// Files by different paths.
#[derive(Drop)]
pub struct FileSet {
    files: Vec<FileBytes>,
    ghost paths: { all_paths files.items ≡ true },
    ghost names: { AllDiffer files.items },
}

impl FileSet {
    /// No file. It takes no memory.
    pub fn new(alloc: Global) -> FileSet
        ensures { result.files.items ≡ [] }
    {
        FileSet {
            files: Vec::new(alloc),
        }
    }

    /// Puts a file in the place of the one of its path, or adds it.
    pub fn put(&mut self, alloc: Global, path: &str, bytes: List<u8>) -> Result<(), PutError>
        ensures ok { OnOk result (files_in self.new.files.items ≡ insert (files_in self.old.files.items) path.now bytes) }
        ensures err { OnErr result (self.new.files.items ≡ self.old.files.items) }
        ensures not_a_path { IsErrOf result NotAPath → is_path path.now ≡ false }
    {
        if !is_path(path) {
            return Err(PutError::NotAPath);
        }
        let Ok(name) = List::of_bytes(alloc, path.as_bytes()) else {
            return Err(PutError::NoMemory);
        };
        match set_file(&mut self.files, FileBytes { name, bytes }) {
            Ok(()) => Ok(()),
            Err(NoMemory) => Err(PutError::NoMemory),
        }
    }

    /// The files, as `MemShelf::new` takes them.
    pub fn into_files(self) -> List<FileBytes>
        ensures files { result ≡ self.files.items }
        ensures paths { all_paths result ≡ true }
        ensures names { AllDiffer result }
    {
        let FileSet { files } = self;
        List::of(files)
    }
}
