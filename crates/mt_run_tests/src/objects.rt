//! What the tests are run on.
ghost use Rattle.std.specs.Prelude.{◌≡◌, IfOk, true};
ghost use Rattle.mt_shelf.specs.Held.{all_paths, AllDiffer};

use mt_fault::FileBytes;
use mt_shelf::FileSet;
use mt_types::List;
use std::alloc::Global;
use std::test::Fail;

/// Files by their paths.
pub fn files_of(alloc: Global, files: &[(&str, &str)]) -> Result<List<FileBytes>, Fail>
    ensures paths { IfOk result (λ files. all_paths files ≡ true) }
    ensures names { IfOk result AllDiffer }
{
    let mut set = FileSet::new(alloc);
    for (path, text) in files {
        set.put(alloc, path, List::of_bytes(alloc, text.as_bytes())?)?;
    }
    Ok(set.into_files())
}

/// Words as `run` takes them.
pub fn words_of(alloc: Global, words: &[&str]) -> Result<Vec<String>, Fail> {
    let mut all = Vec::new(alloc);
    for word in words {
        all.push(String::from_str(alloc, word)?)?;
    }
    Ok(all)
}
