//! The draft of a part: a folder beside the part's place, which a rename makes the part.

use crate::retry::write_whole;
use std::alloc::Global;
use std::io::ErrorKind;
use std::rt::Files;
use std::{fs, io};

/// Begins the names of the folders of drafts. Nothing in a part has such a name.
pub const DRAFT_PREFIX: &str = "tmp-mtpart-";

/// An open draft.
#[derive(Drop)]
pub struct Draft {
    target: String,
    folder: String,
}

impl Draft {
    /// Makes the folder of a draft, empty, with the folders above it.
    pub fn open<R: Files + AllocGlobal>(rt: &R, target: &str) -> io::Result<Draft> {
        if target.split('/').any(is_draft_name) {
            return Err(io::Error::from(ErrorKind::InvalidInput));
        }
        let folder = draft_folder(rt.alloc(), target)?;
        remove_folder(rt, folder.as_str())?;
        fs::create_dir_all(rt, folder.as_str())?;
        let target = String::from_str(rt.alloc(), target)?;
        Ok(Draft { target, folder })
    }

    /// Writes a file, with the folders that its name has.
    pub fn write<R: Files + AllocGlobal>(&self, rt: &R, name: &str, bytes: &[u8]) -> io::Result<()>
    where
        R::File: Drop,
    {
        let path = path_of(rt.alloc(), self.folder.as_str(), name)?;
        if let Some((parent, _)) = name.rsplit_once('/') {
            let folders = path_of(rt.alloc(), self.folder.as_str(), parent)?;
            fs::create_dir_all(rt, folders.as_str())?;
        }
        let mut file = fs::create(rt, path.as_str())?;
        write_whole(&mut file, bytes)
    }

    /// Makes the draft the part in one step. A folder that has files is not replaced.
    pub fn publish<R: Files>(&self, rt: &R) -> io::Result<()> {
        fs::rename(rt, self.folder.as_str(), self.target.as_str())
    }
}

/// Whether a name is one of a draft's folder.
pub fn is_draft_name(name: &str) -> bool {
    name.starts_with(DRAFT_PREFIX)
}

/// The path of a name below a folder.
pub fn path_of(alloc: Global, folder: &str, name: &str) -> io::Result<String> {
    let mut path = String::from_str(alloc, folder)?;
    path.push_str("/")?;
    path.push_str(name)?;
    Ok(path)
}

// For `X/N` the folder `X/tmp-mtpart-N`, for `/N` the folder `/tmp-mtpart-N`.
fn draft_folder(alloc: Global, target: &str) -> io::Result<String> {
    let mut folder = String::new(alloc);
    let mut last = target;
    if let Some((parent, name)) = target.rsplit_once('/') {
        folder.push_str(parent)?;
        folder.push_str("/")?;
        last = name;
    }
    folder.push_str(DRAFT_PREFIX)?;
    folder.push_str(last)?;
    Ok(folder)
}

fn remove_folder<R: Files + AllocGlobal>(rt: &R, folder: &str) -> io::Result<()> {
    match fs::remove_dir_all(rt, folder) {
        Err(error) if error.kind() == ErrorKind::NotFound => Ok(()),
        answer => answer,
    }
}
