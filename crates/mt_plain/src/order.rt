//! Files in the byte order of their names.

ghost use Rattle.std.specs.Prelude.{◌≡◌, ◌≤◌, length, IfOk};
ghost use Rattle.std.specs.List.{insert};
ghost use Rattle.std.specs.Ordering.{is_gt};
ghost use Rattle.mt_defs.specs.Sorting.{placed_by, sorted_by};
ghost use Rattle.mt_defs.specs.Writer.{file_cmp};

use mt_fault::FileBytes;
use mt_types::{List, NoMemory};
use std::alloc::Global;

/// The files in order, by insertion from the last to the first.
pub(crate) fn in_order(alloc: Global, files: Vec<FileBytes>) -> Result<List<FileBytes>, NoMemory>
    ensures { IfOk result (λ sorted. sorted ≡ sorted_by file_cmp files.items) }
{
    let mut files = files;
    let mut sorted = Vec::new(alloc);
    while let Some(file) = files.pop() {
        let index = index_of(&file, &sorted);
        sorted.insert(index, file)?;
    }
    Ok(List::of(sorted))
}

/// Where a file goes among files in order: before the first whose name isn't below its own.
fn index_of(file: &FileBytes, sorted: &[FileBytes]) -> usize
    ensures within { result ≤ length sorted.now }
    ensures placed { insert sorted.now result file.now ≡ placed_by file_cmp file.now sorted.now }
{
    for (index, other) in sorted.iter().enumerate() {
        if !is_after(file, other) {
            return index;
        }
    }
    sorted.len()
}

/// Whether a file's name is above another's.
fn is_after(file: &FileBytes, other: &FileBytes) -> bool
    ensures { result ≡ is_gt (file_cmp file.now other.now) }
{
    file.name.as_slice().cmp(other.name.as_slice()).is_gt()
}
