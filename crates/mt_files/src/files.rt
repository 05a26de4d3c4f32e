//! The files of a folder, by their names.

ghost use Rattle.std.specs.Prelude.{◌≡◌, option_copied};
ghost use Rattle.mt_defs.specs.Folder.{folder_of};
ghost use Rattle.mt_defs.specs.Part.{is_compact};
ghost use Rattle.mt_granules.specs.FileFaults.{file_reading};
ghost use Rattle.mt_files.specs.Results.{GivesBytes};

use mt_codec::know_bytes;
use mt_fault::{FileBytes, FileError, Why, file_fault};
use mt_names::MARKS_FILE;
use std::alloc::Global;

/// The bytes of the file of a name, if there is one. It is asked for a few files alone.
pub fn find<'a>(files: &'a [FileBytes], name: &[u8]) -> Option<&'a [u8]>
    ensures { option_copied result ≡ folder_of files.now name.now }
{
    for file in files {
        if file.name.as_slice() == name {
            return Some(file.bytes.as_slice());
        }
    }
    None
}

/// The bytes of the file of a name, or that it is missing.
pub fn bytes_of<'a>(
    alloc: Global,
    files: &'a [FileBytes],
    name: &[u8],
) -> Result<&'a [u8], FileError>
    ensures { GivesBytes result (file_reading (folder_of files.now) name.now) }
{
    match find(files, name) {
        Some(bytes) => {
            know_bytes(bytes);
            Ok(bytes)
        }
        None => Err(file_fault(alloc, name, Why::Missing)),
    }
}

/// Whether the folder is Compact: it has the marks file of all columns.
pub fn is_compact(files: &[FileBytes]) -> bool
    ensures { result ≡ is_compact (folder_of files.now) }
{
    find(files, MARKS_FILE).is_some()
}
