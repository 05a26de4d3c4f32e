//! Calls that mean the same over every shelf, each printed with what it gave.

use mt_fault::FileBytes;
use mt_shelf::{CallError, Shelf, have_names, is_path, read_file, store};
use mt_types::List;
use std::io;

/// Stores parts, and shows what stands then.
pub fn try_shelf<R: Print + AllocGlobal, F: Shelf>(rt: &R, shelf: &mut F) -> io::Result<()> {
    show_part(rt, shelf, "p")?;
    store_part(
        rt,
        shelf,
        "p",
        &[
            ("b.bin", "hello"),
            ("a.bin", "abc"),
            ("p.proj/b.bin", "xyz"),
            ("a.bin", ""),
        ],
    )?;
    show_part(rt, shelf, "p")?;
    show_part(rt, shelf, "p/p.proj")?;
    show_part(rt, shelf, "p/a.bin")?;
    store_part(rt, shelf, "x/y/z", &[("count.txt", "3")])?;
    show_part(rt, shelf, "x")?;
    show_part(rt, shelf, "x/y/z")?;
    show_size(rt, shelf, "x/y")?;
    show_size(rt, shelf, "p/b.bin/c")
}

/// Prints whether a part is there, and its files.
pub fn show_part<R: Print + AllocGlobal, F: Shelf>(
    rt: &R,
    shelf: &mut F,
    part: &str,
) -> io::Result<()> {
    if !is_path(part) {
        return println!(rt; "{part}: not a path");
    }
    match shelf.exists(part) {
        Ok(found) => println!(rt; "{part}: exists {found}")?,
        Err(error) => println!(rt; "{part}: {error}")?,
    }
    match shelf.list(part) {
        Ok(Some(entries)) => {
            for entry in entries.as_slice() {
                let name = str::from_utf8(entry.name.as_slice()).unwrap_or("?");
                println!(rt; "  {name} {}", entry.size)?;
                let path = format!(in rt.alloc(); "{part}/{name}")?;
                show_bytes(rt, shelf, path.as_str())?;
            }
            Ok(())
        }
        Ok(None) => println!(rt; "  nothing"),
        Err(error) => println!(rt; "  {error}"),
    }
}

/// Prints what a file holds.
pub fn show_bytes<R: Print + AllocGlobal, F: Shelf>(
    rt: &R,
    shelf: &mut F,
    path: &str,
) -> io::Result<()> {
    if !is_path(path) {
        return println!(rt; "{path}: not a path");
    }
    let Ok(Some(size)) = shelf.size(path) else {
        return println!(rt; "  {path}: no file");
    };
    match read_file(rt.alloc(), shelf, path, size) {
        Ok(bytes) => println!(rt; "  \"{}\"", str::from_utf8(bytes.as_slice()).unwrap_or("?")),
        Err(error) => println!(rt; "  {path}: {error}"),
    }
}

fn show_size<R: Print, F: Shelf>(rt: &R, shelf: &mut F, path: &str) -> io::Result<()> {
    if !is_path(path) {
        return println!(rt; "{path}: not a path");
    }
    match shelf.size(path) {
        Ok(Some(size)) => println!(rt; "{path}: {size} bytes"),
        Ok(None) => println!(rt; "{path}: no file"),
        Err(error) => println!(rt; "{path}: {error}"),
    }
}

/// Stores files below a part, given by names and texts.
pub fn store_part<R: Print + AllocGlobal, F: Shelf>(
    rt: &R,
    shelf: &mut F,
    part: &str,
    texts: &[(&str, &str)],
) -> io::Result<()> {
    let mut files = Vec::new(rt.alloc());
    for (name, text) in texts {
        files.push(FileBytes {
            name: List::of(Vec::from_slice(rt.alloc(), name.as_bytes())?),
            bytes: List::of(Vec::from_slice(rt.alloc(), text.as_bytes())?),
        })?;
    }
    match store_files(shelf, part, files.as_slice()) {
        Ok(()) => println!(rt; "{part}: stored"),
        Err(error) => println!(rt; "{part}: {error}"),
    }
}

fn store_files<F: Shelf>(shelf: &mut F, part: &str, files: &[FileBytes]) -> Result<(), CallError> {
    if !is_path(part) {
        return Err(CallError::Failed);
    }
    if !have_names(files) {
        return Err(CallError::Failed);
    }
    store(shelf, part, files)
}
