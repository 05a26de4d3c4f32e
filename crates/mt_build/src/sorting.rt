//! Files in the order of their names.

ghost use Rattle.std.specs.Prelude.{◌≡◌, IfOk};
ghost use Rattle.mt_defs.specs.Sorting.{sorted_by};
ghost use Rattle.mt_defs.specs.Writer.{file_cmp};

use mt_fault::FileBytes;
use mt_types::{List, NoMemory};

/// The files in the byte order of their names.
pub fn sort_files(mut files: Vec<FileBytes>) -> Result<List<FileBytes>, NoMemory>
    ensures { IfOk result (λ sorted. sorted ≡ sorted_by file_cmp files.items) }
{
    files.sort_by(|a, b| a.name.as_slice().cmp(b.name.as_slice()))?;
    Ok(List::of(files))
}
