//! A shelf over folders. Its content isn't known to a proof: others may write there too.
ghost use Rattle.std.specs.Prelude.{◌≡◌, ◌<◌, ◌≤◌, IfOk, length};

use crate::draft::Draft;
use crate::fault_count::FaultCount;
use crate::listing::{has_file, is_missing, list_folder};
use crate::retry::read_some;
use mt_shelf::{CallError, Entry, Shelf};
use mt_types::List;
use std::io::{ErrorKind, Seek, SeekFrom};
use std::rt::Files;
use std::{fs, io};

/// Folders, by paths from where the program runs.
#[derive(Drop)]
pub struct DirShelf<R> {
    rt: R,
    draft: Option<Draft>,
    taken: u64,
    count: FaultCount,
}

impl<R: Files + AllocGlobal + Clone + Drop> DirShelf<R>
where
    R::File: Drop,
{
    /// No draft is open, and nothing was read.
    pub fn new(rt: R) -> DirShelf<R>
        ensures { ⟦<DirShelf<R> as Shelf>⟧.faults result ≡ 0 }
    {
        DirShelf {
            rt,
            draft: None,
            taken: 0,
            count: FaultCount::new(),
        }
    }
}

impl<R: Files + AllocGlobal + Clone + Drop> Shelf for DirShelf<R>
where
    R::File: Drop,
{
    ghost use Rattle.std.specs.Prelude.{None, is_some};
    ghost use Rattle.mt_shelf.specs.State.{State};

    ghost state = { λ s. record { content = None; begun = is_some s.draft; taken = s.taken } };

    ghost faults = { λ s. s.count.faults };

    ghost paths = { λ _. tt };

    ghost bytes = { λ _. tt };

    fn size(&mut self, path: &str) -> Result<Option<u64>, CallError> {
        match size_of(&self.rt, path) {
            Ok(size) => Ok(size),
            Err(error) => Err(self.count.cause_of(&error)),
        }
    }

    fn list(&mut self, part: &str) -> Result<Option<List<Entry>>, CallError> {
        match list_folder(&self.rt, part) {
            Ok(entries) => {
                if entries.is_empty() {
                    Ok(None)
                } else {
                    Ok(Some(List::of(entries)))
                }
            }
            Err(error) => Err(self.count.cause_of(&error)),
        }
    }

    fn exists(&mut self, part: &str) -> Result<bool, CallError> {
        match is_there(&self.rt, part) {
            Ok(found) => Ok(found),
            Err(error) => Err(self.count.cause_of(&error)),
        }
    }

    fn read(&mut self, path: &str, at: u64, into: &mut [u8]) -> Result<usize, CallError> {
        match read_at(&self.rt, path, at, into) {
            Ok(count) => {
                self.taken = self.taken.saturating_add(count as u64);
                Ok(count)
            }
            Err(error) => Err(self.count.cause_of(&error)),
        }
    }

    fn begin(&mut self, part: &str) -> Result<(), CallError> {
        self.draft = None;
        match Draft::open(&self.rt, part) {
            Ok(draft) => {
                self.draft = Some(draft);
                Ok(())
            }
            Err(error) => Err(self.count.cause_of(&error)),
        }
    }

    fn put(&mut self, name: &str, bytes: &[u8]) -> Result<(), CallError> {
        let Some(draft) = &self.draft else {
            unreachable!();
        };
        match draft.write(&self.rt, name, bytes) {
            Ok(()) => Ok(()),
            Err(error) => {
                self.draft = None;
                Err(self.count.cause_of(&error))
            }
        }
    }

    fn publish(&mut self) -> Result<(), CallError> {
        let Some(draft) = self.draft.take() else {
            unreachable!();
        };
        match draft.publish(&self.rt) {
            Ok(()) => Ok(()),
            Err(error) => Err(self.count.cause_of(&error)),
        }
    }
}

// The size of a file, if one stands at the path.
fn size_of<R: Files>(rt: &R, path: &str) -> io::Result<Option<u64>> {
    match fs::metadata(rt, path) {
        Ok(data) => {
            if data.is_file() {
                Ok(Some(data.len()))
            } else {
                Ok(None)
            }
        }
        Err(error) if is_missing(&error) => Ok(None),
        Err(error) => Err(error),
    }
}

// Whether a file stands at the path, or below it.
fn is_there<R: Files + AllocGlobal + Clone + Drop>(rt: &R, part: &str) -> io::Result<bool> {
    match size_of(rt, part)? {
        Some(_) => Ok(true),
        None => has_file(rt, part),
    }
}

// Reads at least one byte of a file, from an offset on.
fn read_at<R: Files>(rt: &R, path: &str, offset: u64, into: &mut [u8]) -> io::Result<usize>
    ensures some { IfOk result (λ n. 0 < n) }
    ensures bound { IfOk result (λ n. n ≤ length into.new) }
{
    let mut file = fs::open(rt, path)?;
    file.seek(SeekFrom::Start(offset))?;
    match read_some(&mut file, into) {
        Ok(0) => Err(io::Error::from(ErrorKind::UnexpectedEof)),
        answer => answer,
    }
}
