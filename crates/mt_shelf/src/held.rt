//! Files in a vector, each path once.
ghost use Rattle.std.specs.Prelude.{◌≡◌, ◌<◌, ◌≤◌, ◌+◌, ◌∷◌, [], None, length, MatchOption, IfSome, OnOk, OnErr, true, vec_len, vec_capacity, slice_get};
ghost use Rattle.std.specs.Option.{option_map};
ghost use Rattle.std.specs.List.{list_any};
ghost use Rattle.std.specs.FinMap.{get, insert};
ghost use Rattle.mt_shelf.specs.Paths.{is_at_or_below};
ghost use Rattle.mt_shelf.specs.Files.{is_file_path, stands};
ghost use Rattle.mt_shelf.specs.Held.{files_in, all_paths, AllDiffer, with_files, IsFirst};

use crate::paths::is_at_or_below;
use mt_fault::FileBytes;
use mt_types::NoMemory;

/// The index of the first file of a path.
pub fn position_of(held: &[FileBytes], path: &[u8]) -> Option<usize>
    ensures first { MatchOption result (get (files_in held.now) path.now ≡ None) (IsFirst held.now path.now) }
    ensures inside { IfSome result (λ i. i < length held.now) }
    ensures found { IfSome result (λ i. get (files_in held.now) path.now ≡ option_map (λ file. file.bytes) (slice_get held.now i)) }
{
    for (i, file) in held.iter().enumerate() {
        if path == file.name.as_slice() {
            return Some(i);
        }
    }
    None
}

/// Puts a file in place of the one of its path, or at the end.
pub fn set_file(held: &mut Vec<FileBytes>, file: FileBytes) -> Result<(), NoMemory>
    ensures files { OnOk result (files_in held.new.items ≡ insert (files_in held.old.items) file.name file.bytes) }
    ensures err { OnErr result (held.new.items ≡ held.old.items) }
    ensures full { OnErr result (vec_capacity held.old ≤ vec_len held.old) }
    ensures len { vec_len held.new ≤ vec_len held.old + 1 }
    ensures capacity { vec_capacity held.old ≤ vec_capacity held.new }
    ensures paths { all_paths held.old.items ≡ true → is_file_path file.name ≡ true → all_paths held.new.items ≡ true }
    ensures names { AllDiffer held.old.items → AllDiffer held.new.items }
{
    match position_of(held, file.name.as_slice()) {
        Some(i) => {
            let FileBytes { name: _, bytes } = file;
            held[i].bytes = bytes;
            Ok(())
        }
        None => {
            held.push(file)?;
            Ok(())
        }
    }
}

/// Puts each file of a draft so, in order. There is room for all, so that all or none are put.
pub fn set_files(held: &mut Vec<FileBytes>, draft: &mut Vec<FileBytes>)
    requires room { vec_len held.old + vec_len draft.old ≤ vec_capacity held.old }
    requires paths { all_paths held.old.items ≡ true }
    requires names { AllDiffer held.old.items }
    requires draft_paths { all_paths draft.old.items ≡ true }
    ensures files { files_in held.new.items ≡ with_files draft.old.items (files_in held.old.items) }
    ensures paths { all_paths held.new.items ≡ true }
    ensures names { AllDiffer held.new.items }
    ensures emptied { draft.new.items ≡ [] }
{
    while !draft.is_empty() {
        let file = draft.remove(0);
        match set_file(held, file) {
            Ok(()) => {}
            Err(_) => unreachable!(),
        }
    }
}

/// Whether a file has the path of a part or lies below it.
pub fn stands(held: &[FileBytes], part: &[u8]) -> bool
    ensures { result ≡ stands part.now (files_in held.now) }
{
    any_at_or_below(held, part)
}

fn any_at_or_below(held: &[FileBytes], part: &[u8]) -> bool
    ensures { result ≡ list_any (λ file. is_at_or_below part.now file.name) held.now }
{
    held.iter()
        .any(|file| is_at_or_below(part, file.name.as_slice()))
}
