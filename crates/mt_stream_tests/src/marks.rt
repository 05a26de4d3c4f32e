//! What marks of three frames show and take, and which are refused.

use crate::files::{framed, mark, shelf_of};
use crate::reading::read_pairs;
use mt_defs::Mark;
use mt_frame::{FrameWhy, put_frames};
use mt_stream::StreamError;
use mt_types::List;
use std::alloc::Global;
use std::test::Fail;

/// What the frames hold: 8, 4 and 3 bytes, in frames at 0, 33 and 62 that end at 90.
const PAYLOAD: [u8; 15] = [1, 2, 3, 4, 5, 6, 7, 8, 9, 10, 11, 12, 13, 14, 15];

/// Two marks: the offset and the inner offset of each.
type Pair = [u64; 4];

/// Pairs that are read one after another: the bytes that they show, and how many are taken.
const READS: &[(&[Pair], &[u8], u64)] = &[
    (&[[0, 0, 0, 3]], &[1, 2, 3], 33),
    (&[[0, 0, 0, 3], [0, 3, 0, 8]], &[1, 2, 3, 4, 5, 6, 7, 8], 33),
    (&[[0, 6, 33, 2], [33, 2, 62, 0]], &[7, 8, 9, 10, 11, 12], 62),
    (&[[33, 3, 90, 0]], &[12, 13, 14, 15], 57),
    // Frames that no mark touches are passed over.
    (&[[0, 7, 33, 0], [62, 1, 62, 3]], &[8, 14, 15], 61),
    // A mark at a frame's end touches it, one at the end of the file none.
    (&[[0, 8, 33, 0], [33, 4, 62, 0]], &[], 62),
    (&[[90, 0, 90, 0]], &[], 0),
    // One mark twice.
    (&[[33, 0, 33, 0]], &[], 0),
];

/// Pairs of which the last is refused.
const REFUSED: &[(&[Pair], StreamError)] = &[
    (
        &[[1, 0, 33, 0]],
        StreamError::At {
            offset: 1,
            why: FrameWhy::Method,
        },
    ),
    (
        &[[0, 0, 33, 0], [70, 0, 90, 0]],
        StreamError::At {
            offset: 70,
            why: FrameWhy::Cut,
        },
    ),
    (&[[0, 9, 33, 0]], StreamError::Place),
    (&[[0, 0, 32, 0]], StreamError::Place),
    (&[[0, 0, 0, 9]], StreamError::Place),
    (&[[0, 2, 0, 1]], StreamError::Place),
    (&[[33, 0, 0, 8]], StreamError::Place),
    (&[[33, 0, 33, 4], [0, 0, 0, 8]], StreamError::Place),
    (&[[90, 0, 90, 1]], StreamError::Place),
    (&[[0, 0, 91, 0]], StreamError::Place),
];

fn pairs_of(alloc: Global, pairs: &[Pair]) -> Result<Vec<(Mark, Mark)>, Fail> {
    let mut out = Vec::new(alloc);
    for [begins, begins_inner, ends, ends_inner] in pairs {
        out.push((mark(*begins, *begins_inner), mark(*ends, *ends_inner)))?;
    }
    Ok(out)
}

fn three_frames(alloc: Global) -> Result<List<u8>, Fail> {
    Ok(framed(alloc, &PAYLOAD, &[8, 4, 3], false)?.file)
}

#[test]
fn marks_show_the_payload_between_them(rt: HostRuntime) -> Result<(), Fail> {
    let alloc = rt.alloc();
    let file = three_frames(alloc)?;
    for (pairs, shown, taken) in READS {
        for most in [1, 7, 65_536] {
            let mut shelf = shelf_of(alloc, file.as_slice(), 0, most)?;
            let mut into = Vec::new(alloc);
            let pairs = pairs_of(alloc, pairs)?;
            assert_eq!(rt;
                read_pairs(alloc, &mut shelf, pairs.as_slice(), &mut into)?,
                Ok(())
            );
            assert_eq!(rt; into.as_slice(), *shown);
            assert_eq!(rt; shelf.bytes_taken(), *taken);
        }
    }
    Ok(())
}

#[test]
fn marks_that_denote_nothing_are_refused(rt: HostRuntime) -> Result<(), Fail> {
    let alloc = rt.alloc();
    let file = three_frames(alloc)?;
    for (pairs, error) in REFUSED {
        let mut shelf = shelf_of(alloc, file.as_slice(), 0, 7)?;
        let mut into = Vec::new(alloc);
        let marks = pairs_of(alloc, pairs)?;
        assert_eq!(rt;
            read_pairs(alloc, &mut shelf, marks.as_slice(), &mut into)?,
            Err(*error),
            "{pairs:?}"
        );
    }
    Ok(())
}

/// Seven bytes a read: four calls for a header, and two, one and one for the payloads.
#[test]
fn a_call_that_fails_ends_the_reading(rt: HostRuntime) -> Result<(), Fail> {
    let alloc = rt.alloc();
    let file = three_frames(alloc)?;
    let pairs = pairs_of(alloc, &[[0, 0, 33, 1], [33, 1, 90, 0]])?;
    for call in 2..19 {
        let mut shelf = shelf_of(alloc, file.as_slice(), call, 7)?;
        let mut into = Vec::new(alloc);
        let want = if call < 18 {
            Err(StreamError::Shelf)
        } else {
            Ok(())
        };
        assert_eq!(rt;
            read_pairs(alloc, &mut shelf, pairs.as_slice(), &mut into)?,
            want,
            "{call}"
        );
    }
    Ok(())
}

/// A frame stands inside the payload of the first, and ends inside the second: where it is held, the second
/// frame's own mark is refused.
#[test]
fn a_frame_inside_a_payload_hides_the_next(rt: HostRuntime) -> Result<(), Fail> {
    let alloc = rt.alloc();
    let mut hidden = List::new(alloc);
    put_frames(alloc, &[5; 40], &mut hidden)?;
    let mut file = List::new(alloc);
    put_frames(alloc, hidden.as_slice().split_at(25).0, &mut file)?;
    put_frames(alloc, &[6; 40], &mut file)?;
    let mut shelf = shelf_of(alloc, file.as_slice(), 0, 7)?;
    let mut into = Vec::new(alloc);
    let pairs = pairs_of(alloc, &[[25, 0, 25, 1], [50, 0, 50, 1]])?;
    assert_eq!(rt;
        read_pairs(alloc, &mut shelf, pairs.as_slice(), &mut into)?,
        Err(StreamError::Place)
    );
    assert_eq!(rt; into.len(), 1);
    Ok(())
}
