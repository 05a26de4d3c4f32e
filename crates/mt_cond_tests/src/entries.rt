//! Entries of skip indexes.

use crate::shared::compared;
use mt_match::may_match;
use mt_query::Op;
use mt_table::{Skip, SkipKind};
use mt_types::{List, NoMemory, Ty, Width};
use std::alloc::Global;
use std::test::Fail;

/// An index over column 0, the bytes of an entry of numbers of 16 bits, a number, and whether the column may be it.
const ENTRIES: &[(SkipKind, &[u8], i128, Option<bool>)] = &[
    (SkipKind::Minmax, b"\x02\0\x04\0", 1, Some(false)),
    (SkipKind::Minmax, b"\x02\0\x04\0", 2, Some(true)),
    (SkipKind::Minmax, b"\x02\0\x04\0", 3, Some(true)),
    (SkipKind::Minmax, b"\x02\0\x04\0", 4, Some(true)),
    (SkipKind::Minmax, b"\x02\0\x04\0", 5, Some(false)),
    (SkipKind::Minmax, b"\x02\0\x04", 3, None),
    (SkipKind::Minmax, b"\x02\0\x04\0\0", 3, None),
    (SkipKind::Minmax, b"\x04\0\x02\0", 3, None),
    (
        SkipKind::Set(3),
        b"\x02\0\0\0\0\0\0\0\x02\0\x04\0",
        2,
        Some(true),
    ),
    (
        SkipKind::Set(3),
        b"\x02\0\0\0\0\0\0\0\x02\0\x04\0",
        3,
        Some(false),
    ),
    (
        SkipKind::Set(3),
        b"\x02\0\0\0\0\0\0\0\x04\0\x02\0",
        4,
        Some(true),
    ),
    (SkipKind::Set(3), b"\x02\0\0\0\0\0\0\0\x02\0\x02\0", 2, None),
    (SkipKind::Set(3), b"\x03\0\0\0\0\0\0\0\x02\0\x04\0", 2, None),
    (
        SkipKind::Set(3),
        b"\xff\xff\xff\xff\xff\xff\xff\xff\x02\0",
        2,
        None,
    ),
    (SkipKind::Set(3), b"\0\0\0\0\0\0\0\0", 9, Some(true)),
    (SkipKind::Set(3), b"\0\0\0\0\0\0\0", 9, None),
];

fn answer(
    alloc: Global,
    kind: SkipKind,
    entry: &[u8],
    number: i128,
) -> Result<Option<bool>, NoMemory> {
    let skip = Skip {
        name: List::of_bytes(alloc, b"i")?,
        column: 0,
        kind,
        granularity: 1,
    };
    may_match(
        alloc,
        &compared(0, Op::Eq, number),
        &skip,
        &Ty::UInt(Width::W16),
        entry,
    )
}

#[test]
fn entries_let_conditions_be_true(rt: HostRuntime) -> Result<(), Fail> {
    for (kind, entry, number, may) in ENTRIES {
        assert!(rt; answer(rt.alloc(), *kind, entry, *number)? == *may);
    }
    Ok(())
}
