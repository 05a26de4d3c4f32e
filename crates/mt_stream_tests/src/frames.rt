//! What is shown and taken, wherever the frames are cut.

use crate::files::{framed, shelf_of};
use crate::reading::read_pairs;
use mt_defs::Mark;
use std::alloc::Global;
use std::test::Fail;

/// What the frames hold.
const PAYLOAD: [u8; 12] = [1, 2, 3, 4, 5, 6, 7, 8, 9, 10, 11, 12];

/// The sizes of the frames that hold it.
const SIZES: &[&[u64]] = &[
    &[12],
    &[1, 11],
    &[3, 9],
    &[4, 8],
    &[7, 5],
    &[8, 4],
    &[11, 1],
    &[4, 4, 4],
    &[5, 2, 5],
    &[1, 10, 1],
    &[1, 1, 1, 1, 1, 1, 1, 1, 1, 1, 1, 1],
];

/// Where granules begin, and where the last ends.
const GRANULES: &[&[usize]] = &[
    &[0, 12],
    &[0, 4, 8, 12],
    &[0, 0, 6, 6, 12, 12],
    &[0, 1, 2, 3, 4, 5, 6, 7, 8, 9, 10, 11, 12],
];

/// The marks between which each granule stands.
fn pairs_of(alloc: Global, marks: &[Mark], positions: &[usize]) -> Result<Vec<(Mark, Mark)>, Fail> {
    let mut pairs = Vec::new(alloc);
    let mut begins = None;
    for position in positions {
        let Some(ends) = marks.get(*position) else {
            return Err(Fail::from("no mark"));
        };
        if let Some(begins) = begins {
            pairs.push((begins, *ends))?;
        }
        begins = Some(*ends);
    }
    Ok(pairs)
}

#[test]
fn each_frame_is_taken_once_wherever_frames_are_cut(rt: HostRuntime) -> Result<(), Fail> {
    let alloc = rt.alloc();
    for sizes in SIZES {
        for positions in GRANULES {
            for (at_ends, most) in [(false, 1), (true, 1), (false, 65_536), (true, 65_536)] {
                let data = framed(alloc, &PAYLOAD, sizes, at_ends)?;
                let mut shelf = shelf_of(alloc, data.file.as_slice(), 0, most)?;
                let pairs = pairs_of(alloc, data.marks.as_slice(), positions)?;
                let mut into = Vec::new(alloc);
                assert_eq!(rt;
                    read_pairs(alloc, &mut shelf, pairs.as_slice(), &mut into)?,
                    Ok(())
                );
                assert_eq!(rt;
                    into.as_slice(),
                    PAYLOAD.as_slice(),
                    "{sizes:?} {positions:?} {at_ends}"
                );
                assert_eq!(rt;
                    shelf.bytes_taken(),
                    data.file.len() as u64,
                    "{sizes:?} {positions:?}"
                );
            }
        }
    }
    Ok(())
}
