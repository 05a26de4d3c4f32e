//! The form of paths, and which paths lie below a folder.
ghost use Rattle.std.specs.Prelude.{◌≡◌, IfOk};
ghost use Rattle.std.specs.Option.{option_copied};
ghost use Rattle.mt_shelf.specs.Files.{is_file_name};
ghost use Rattle.mt_shelf.specs.Paths.{is_entry_name, is_relative, is_path, is_dots, has_no_zero, name_below, is_at_or_below, joined_path};

use crate::bytes::{rest_from, subslice};
use mt_types::NoMemory;
use std::alloc::Global;

fn is_dots(name: &[u8]) -> bool
    ensures { result ≡ is_dots name.now }
{
    match name {
        [] => true,
        [a] => *a == b'.',
        [a, b] => *a == b'.' && *b == b'.',
        _ => false,
    }
}

fn has_no_zero(name: &[u8]) -> bool
    ensures { result ≡ has_no_zero name.now }
{
    name.iter().all(|byte| *byte != 0)
}

fn is_name(name: &[u8]) -> bool
    ensures { result ≡ is_entry_name name.now }
{
    !is_dots(name) && has_no_zero(name)
}

/// Whether the bytes are names with `/` between them, each neither empty nor `.` nor `..`.
pub fn is_relative(path: &[u8]) -> bool
    ensures { result ≡ is_relative path.now }
{
    let mut end = path.len();
    let mut rest_good = true;
    for i in (0..path.len()).rev() {
        if path[i] == b'/' {
            rest_good = is_name(subslice(path, i + 1, end)) & rest_good;
            end = i;
        }
    }
    is_name(subslice(path, 0, end)) & rest_good
}

/// Whether the bytes are such names, in UTF-8, as the name of a file below a part is.
pub fn is_file_name(name: &[u8]) -> bool
    ensures { result ≡ is_file_name name.now }
{
    match str::from_utf8(name) {
        Ok(_) => is_relative(name),
        Err(_) => false,
    }
}

/// Whether the text is a path: names with `/` between them, after a `/` or none.
pub fn is_path(path: &str) -> bool
    ensures { result ≡ is_path path.now }
{
    match path.as_bytes() {
        [] => false,
        [b'/', ..] => is_relative(rest_from(path.as_bytes(), 1)),
        [_, ..] => is_relative(path.as_bytes()),
    }
}

/// The name that a path has below a part, after its `/`.
pub fn name_below<'a>(part: &[u8], path: &'a [u8]) -> Option<&'a [u8]>
    ensures { option_copied result ≡ name_below part.now path.now }
{
    let mut part_left = part;
    let mut path_left = path;
    while let [first, part_more @ ..] = part_left {
        match path_left {
            [byte, path_more @ ..] if byte == first => {
                part_left = part_more;
                path_left = path_more;
            }
            _ => return None,
        }
    }
    match path_left {
        [b'/', name @ ..] => Some(name),
        _ => None,
    }
}

/// Whether the path is the part's, or lies below it.
pub fn is_at_or_below(part: &[u8], path: &[u8]) -> bool
    ensures { result ≡ is_at_or_below part.now path.now }
{
    let mut part_left = part;
    let mut path_left = path;
    while let [first, part_more @ ..] = part_left {
        match path_left {
            [byte, path_more @ ..] if byte == first => {
                part_left = part_more;
                path_left = path_more;
            }
            _ => return false,
        }
    }
    match path_left {
        [] => true,
        [byte, ..] => *byte == b'/',
    }
}

/// The path of a name below a part.
pub fn joined_path(alloc: Global, part: &[u8], name: &[u8]) -> Result<Vec<u8>, NoMemory>
    ensures { IfOk result (λ path. path.items ≡ joined_path part.now name.now) }
{
    let mut path = part.to_vec(alloc)?;
    path.push(b'/')?;
    path.extend_from_slice(name)?;
    Ok(path)
}
