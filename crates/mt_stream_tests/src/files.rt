//! Data files on a shelf in memory.

use mt_defs::Mark;
use mt_frame::put_frames;
use mt_shelf::{FileSet, MemShelf};
use mt_types::List;
use std::alloc::Global;
use std::test::Fail;

/// Where the data file is.
pub const PATH: &str = "p/k.bin";

/// A data file, and a mark of each position of its payload.
#[derive(Drop)]
pub struct MarkedFile {
    pub file: List<u8>,
    pub marks: List<Mark>,
}

/// The payload in frames of these sizes. Where one frame ends and the next begins, the mark is in the first
/// of them or in the second.
pub fn framed(
    alloc: Global,
    payload: &[u8],
    sizes: &[u64],
    at_ends: bool,
) -> Result<MarkedFile, Fail> {
    let mut file = List::new(alloc);
    let mut marks = List::new(alloc);
    if at_ends {
        marks.push(mark(0, 0))?;
    }
    let mut rest = payload;
    for size in sizes {
        let Some((first, more)) = rest.split_at_checked(*size as usize) else {
            return Err(Fail::from("the frames hold more than the payload"));
        };
        push_marks(file.len() as u64, *size, at_ends, &mut marks)?;
        put_frames(alloc, first, &mut file)?;
        rest = more;
    }
    if !at_ends {
        marks.push(mark(file.len() as u64, 0))?;
    }
    Ok(MarkedFile { file, marks })
}

/// Marks of a frame's bytes: of the places before them, or after them.
fn push_marks(offset: u64, size: u64, after: bool, marks: &mut List<Mark>) -> Result<(), Fail> {
    for index in 0..size {
        let inner = if after {
            index.saturating_add(1)
        } else {
            index
        };
        marks.push(mark(offset, inner))?;
    }
    Ok(())
}

/// The place at an offset in the payload of the frame at an offset of the file.
pub fn mark(offset: u64, inner: u64) -> Mark {
    Mark { offset, inner }
}

/// A shelf of one file, of whose calls one fails (0: none does), and whose reads give at most so many bytes.
pub fn shelf_of(alloc: Global, file: &[u8], call: u64, most: usize) -> Result<MemShelf, Fail> {
    let mut set = FileSet::new(alloc);
    set.put(alloc, PATH, List::of_bytes(alloc, file)?)?;
    let mut failing = List::new(alloc);
    failing.push(call)?;
    Ok(MemShelf::new(alloc, set.into_files(), failing, most.max(1)))
}
