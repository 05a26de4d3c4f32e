//! Tries the shelves: the same calls in memory and over real folders, and then what only real
//! folders can meet. It works in the folder where it runs.
#![tactic(auto)]

mod folders;
mod same;

use mt_host::DirShelf;
use mt_shelf::{FileSet, MemShelf, SureShelf};
use mt_types::List;
use std::{env, fs, io};

fn main(rt: HostRuntime) -> io::Result<()> {
    let alloc = rt.alloc();
    println!(rt; "# in memory, two bytes a read")?;
    let mut sure = SureShelf::new(alloc, FileSet::new(alloc).into_files(), 2);
    same::try_shelf(&rt, &mut sure)?;
    println!(rt; "taken {}", sure.bytes_taken())?;
    println!(rt; "# in memory, one byte a read")?;
    let mut mem = MemShelf::new(alloc, FileSet::new(alloc).into_files(), List::new(alloc), 1);
    same::try_shelf(&rt, &mut mem)?;
    println!(rt; "taken {}", mem.bytes_taken())?;
    println!(rt; "# folders")?;
    for name in ["p", "x", "empty", "deep", "abs", "tmp-mtpart-p"] {
        let _ = fs::remove_dir_all(&rt, name);
    }
    let mut dir = DirShelf::new(rt);
    same::try_shelf(&rt, &mut dir)?;
    folders::try_folders(&rt, &mut dir)?;
    let here = env::current_dir(&rt)?;
    let part = format!(in alloc; "{}/abs", here.to_string_lossy())?;
    folders::try_absolute(&rt, &mut dir, part.as_str())
}
