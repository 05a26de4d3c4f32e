//! One frame of a file on a shelf.

use mt_frame::put_frames;
use mt_shelf::{FileSet, MemShelf, Shelf, is_path};
use mt_shelf_frame::{ReadFrameError, read_frame};
use mt_types::List;
use std::alloc::Global;
use std::test::Fail;

const PATH: &str = "p/k.bin";

/// The payload of a first frame, which ends at 33.
const FIRST: [u8; 8] = [1, 0, 0, 0, 2, 0, 0, 0];

/// The payload of a second frame, which stands at 33 and ends at 62.
const SECOND: [u8; 4] = [3, 0, 0, 0];

/// The most bytes that a read gives, the number of a call that fails (0: none does), and where a frame begins: what is
/// answered.
const CASES: &[(usize, u64, u64, Result<u64, ReadFrameError>)] = &[
    (1, 0, 0, Ok(33)),
    (7, 0, 33, Ok(62)),
    (65_536, 0, 0, Ok(33)),
    // One call for the size, four for the header, and two for the payload.
    (7, 2, 0, Err(ReadFrameError::Shelf)),
    (7, 5, 0, Err(ReadFrameError::Shelf)),
    (7, 6, 0, Err(ReadFrameError::Shelf)),
    (7, 7, 0, Err(ReadFrameError::Shelf)),
    (7, 8, 0, Ok(33)),
];

/// A shelf of one file of two frames, whose reads give at most so many bytes and of whose calls one fails.
fn shelf_of(alloc: Global, most: usize, call: u64) -> Result<MemShelf, Fail> {
    let mut file = List::new(alloc);
    put_frames(alloc, &FIRST, &mut file)?;
    put_frames(alloc, &SECOND, &mut file)?;
    let mut set = FileSet::new(alloc);
    set.put(alloc, PATH, file)?;
    let mut failing = List::new(alloc);
    failing.push(call)?;
    Ok(MemShelf::new(alloc, set.into_files(), failing, most.max(1)))
}

/// Asks for the file's size, and reads the frame at an offset of it.
fn read_at(
    alloc: Global,
    shelf: &mut MemShelf,
    at: u64,
    into: &mut List<u8>,
) -> Result<Result<u64, ReadFrameError>, Fail> {
    if !is_path(PATH) {
        return Err(Fail::from("no path"));
    }
    match shelf.size(PATH)? {
        Some(size) if at < size => Ok(read_frame(alloc, shelf, PATH, size, at, into)),
        _ => Err(Fail::from("no frame can be there")),
    }
}

#[test]
fn frames_are_read_however_few_bytes_a_read_gives(rt: HostRuntime) -> Result<(), Fail> {
    let alloc = rt.alloc();
    for (most, call, at, want) in CASES {
        let mut shelf = shelf_of(alloc, *most, *call)?;
        let mut into = List::of_bytes(alloc, b"old")?;
        assert_eq!(rt; read_at(alloc, &mut shelf, *at, &mut into)?, *want);
        let payload: &[u8] = match want {
            Ok(33) => &FIRST,
            Ok(_) => &SECOND,
            Err(_) => &[],
        };
        assert_eq!(rt; into.as_slice(), payload);
        let taken = (payload.len() as u64).saturating_add(25);
        assert!(rt; want.is_err() || shelf.bytes_taken() == taken);
    }
    Ok(())
}
