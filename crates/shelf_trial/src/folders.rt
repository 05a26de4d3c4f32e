//! What only real folders meet: parts that stand already, drafts left open, links, depth.

use crate::same::{show_part, store_part};
use mt_shelf::{CallError, Shelf, is_path, is_relative};
use std::os::unix::fs::symlink;
use std::rt::Files;
use std::{fs, io};

/// Tries them one after the other.
pub fn try_folders<R: Print + Files + AllocGlobal, F: Shelf>(
    rt: &R,
    shelf: &mut F,
) -> io::Result<()> {
    println!(rt; "# a part that stands is not replaced, an empty folder is")?;
    store_part(rt, shelf, "p", &[("c.bin", "new")])?;
    show_part(rt, shelf, "p")?;
    fs::create_dir_all(rt, "empty")?;
    show_part(rt, shelf, "empty")?;
    store_part(rt, shelf, "empty", &[("c.bin", "new")])?;
    show_part(rt, shelf, "empty")?;
    println!(rt;
        "# a draft lies beside its target, unseen, and is emptied when it is begun again"
    )?;
    leave_draft(rt, shelf, "x/k")?;
    show_part(rt, shelf, "x")?;
    store_part(rt, shelf, "x/k", &[("d.bin", "k")])?;
    show_part(rt, shelf, "x/k")?;
    store_part(rt, shelf, "x/tmp-mtpart-k/y", &[("c.bin", "new")])?;
    println!(rt; "# at most 8 folders deep, and no links")?;
    store_part(rt, shelf, "deep", &[("1/2/3/4/5/6/7/8/a.bin", "8")])?;
    show_part(rt, shelf, "deep")?;
    store_part(rt, shelf, "deep/1/2/3/4/5/6/7/8/9", &[("a.bin", "9")])?;
    show_part(rt, shelf, "deep")?;
    symlink(rt, "a.bin", "p/link")?;
    show_part(rt, shelf, "p")?;
    Ok(())
}

/// Stores a file below a part by its absolute path, and shows it by its relative one.
pub fn try_absolute<R: Print + AllocGlobal, F: Shelf>(
    rt: &R,
    shelf: &mut F,
    part: &str,
) -> io::Result<()> {
    println!(rt; "# an absolute path")?;
    match publish_file(shelf, part, "a.bin") {
        Ok(()) => println!(rt; "abs: stored")?,
        Err(error) => println!(rt; "abs: {error}")?,
    }
    show_part(rt, shelf, "abs")
}

// Begins a part and puts a file, and goes away.
fn leave_draft<R: Print + Files, F: Shelf>(rt: &R, shelf: &mut F, part: &str) -> io::Result<()> {
    match begin_draft(shelf, part, "old.bin") {
        Ok(()) => println!(rt; "{part}: begun")?,
        Err(error) => println!(rt; "{part}: {error}")?,
    }
    println!(rt;
        "  old.bin in the draft {}",
        fs::exists(rt, "x/tmp-mtpart-k/old.bin")?
    )
}

fn publish_file<F: Shelf>(shelf: &mut F, part: &str, name: &str) -> Result<(), CallError> {
    if !is_path(part) || !is_relative(name.as_bytes()) {
        return Err(CallError::Failed);
    }
    shelf.begin(part)?;
    shelf.put(name, b"old".as_slice())?;
    shelf.publish()
}

fn begin_draft<F: Shelf>(shelf: &mut F, part: &str, name: &str) -> Result<(), CallError> {
    if !is_path(part) || !is_relative(name.as_bytes()) {
        return Err(CallError::Failed);
    }
    shelf.begin(part)?;
    shelf.put(name, b"old".as_slice())
}
