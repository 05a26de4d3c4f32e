//! Files by their names.

ghost use Rattle.std.specs.Prelude.{◌≡◌, ◌<◌, IfOk, option_copied, slice_index_or, vec_len};
ghost use Rattle.std.specs.Ordering.{nat_cmp};
ghost use Rattle.std.specs.Cmp.Lexicographic.{slice_cmp};
ghost use Rattle.mt_fault.specs.declared.file.FileBytes.{FileBytes as Entry};
ghost use Rattle.mt_defs.specs.Folder.{folder_of};
ghost use Rattle.mt_granules.specs.FileFaults.{file_reading};
ghost use Rattle.mt_granules.specs.FileFolder.{indexed_folder};
ghost use Rattle.mt_granules.specs.FileOrder.{IsLowerBound, referenced_files};
ghost use Rattle.mt_fault.specs.Results.{Shows};

use crate::file_index::FileIndex;
use mt_codec::know_bytes;
use mt_fault::{FileBytes, FileError, Why, file_fault};
use mt_types::NoMemory;
use std::alloc::Global;
use std::cmp::Ordering;

impl<'a> FileIndex<'a> {
    /// The index of some files. No file is copied.
    pub fn of(alloc: Global, files: &'a [FileBytes]) -> Result<FileIndex<'a>, NoMemory>
        ensures { IfOk result (λ index. indexed_folder index ≡ folder_of files.now) }
    {
        let mut sorted = Vec::with_capacity(alloc, files.len())?;
        for file in files {
            sorted.push(file)?;
        }
        sorted.sort_by(|a, b| a.name.as_slice().cmp(b.name.as_slice()))?;
        Ok(FileIndex { sorted })
    }

    /// The bytes of the file of a name, or that it is missing.
    pub fn bytes_of(&self, alloc: Global, name: &[u8]) -> Result<&'a [u8], FileError>
        ensures { Shows (λ bytes. bytes.now) result (file_reading (indexed_folder self.now) name.now) }
    {
        match self.get(name) {
            Some(bytes) => {
                know_bytes(bytes);
                Ok(bytes)
            }
            None => Err(file_fault(alloc, name, Why::Missing)),
        }
    }

    /// The bytes of the file of a name, if there is one.
    pub fn get(&self, name: &[u8]) -> Option<&'a [u8]>
        ensures { option_copied result ≡ indexed_folder self.now name.now }
    {
        let index = self.count_below(name);
        let file = *self.sorted.as_slice().get(index)?;
        if file.name.as_slice() == name {
            return Some(file.bytes.as_slice());
        }
        None
    }

    /// How many files have a lesser name: a search by halves.
    fn count_below(&self, name: &[u8]) -> usize
        ensures { IsLowerBound name.now (referenced_files self.now.sorted.items) result }
    {
        let mut low = 0;
        let mut high = self.sorted.len();
        while low < high {
            let middle = low + (high - low) / 2;
            if self.compare_at(middle, name) == Ordering::Less {
                low = middle + 1;
            } else {
                high = middle;
            }
        }
        low
    }

    /// How the name of the file of an index compares to a name.
    fn compare_at(&self, index: usize, name: &[u8]) -> Ordering
        requires { index < vec_len self.now.sorted }
        ensures { (d : Entry) → result ≡ slice_cmp nat_cmp
            (slice_index_or (referenced_files self.now.sorted.items) index d).name name.now }
    {
        self.sorted[index].name.as_slice().cmp(name)
    }
}
