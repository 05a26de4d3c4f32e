//! Each fault, with its substream and its item.

use crate::reading::{fault, front_fault};
use mt_codec::{CodecError, CodecWhy};
use std::test::Fail;

/// The name of a type, a number of values, substreams, and the first fault: its substream, its item,
/// and what is wrong.
type Case = (
    &'static str,
    u64,
    &'static [&'static [u8]],
    u64,
    u64,
    CodecWhy,
);

fn place(stream: u64, item: u64, why: CodecWhy) -> Option<CodecError> {
    Some(CodecError::At { stream, item, why })
}

/// Faults of substreams in lists of their own.
const FAULTS: &[Case] = &[
    ("UInt16", 2, &[b"\x01\0\x02"], 0, 1, CodecWhy::Short),
    ("FixedString(3)", 1, &[b"ab"], 0, 0, CodecWhy::Short),
    ("String", 2, &[b"\x01a"], 0, 1, CodecWhy::Short),
    ("String", 1, &[b"\x80"], 0, 0, CodecWhy::Short),
    ("String", 2, &[b"\0\x80\0"], 0, 1, CodecWhy::Length),
    ("String", 1, &[b"\x81\x80\x80\x08"], 0, 0, CodecWhy::TooLong),
    ("String", 1, &[b"\x02a"], 0, 0, CodecWhy::Short),
    (
        "Nullable(UInt8)",
        2,
        &[b"\0\x02", b"\0\0"],
        0,
        1,
        CodecWhy::NullByte,
    ),
    ("Nullable(UInt8)", 1, &[b"", b""], 0, 0, CodecWhy::Short),
    ("Nullable(UInt8)", 1, &[b"\x01", b""], 1, 0, CodecWhy::Short),
    (
        "Nullable(String)",
        1,
        &[b"\x01", b"\x80\0"],
        1,
        0,
        CodecWhy::Length,
    ),
    (
        "Array(UInt8)",
        1,
        &[b"\x01\0\0\0\0\0\0", b""],
        0,
        0,
        CodecWhy::Short,
    ),
    (
        "Array(UInt8)",
        1,
        &[b"\x01\0\x10\0\0\0\0\0", b""],
        0,
        0,
        CodecWhy::TooLong,
    ),
    (
        "Array(UInt8)",
        1,
        &[b"\x03\0\0\0\0\0\0\0", b"\x07\x07"],
        1,
        2,
        CodecWhy::Short,
    ),
    (
        "AggregateFunction(count)",
        1,
        &[b"\x80\0"],
        0,
        0,
        CodecWhy::Length,
    ),
    (
        "AggregateFunction(sum, UInt8)",
        1,
        &[b"\x01"],
        0,
        0,
        CodecWhy::Short,
    ),
    (
        "AggregateFunction(min, UInt8)",
        2,
        &[b"\0\x02"],
        0,
        1,
        CodecWhy::HasByte,
    ),
    (
        "AggregateFunction(max, UInt8)",
        1,
        &[b"\x01"],
        0,
        0,
        CodecWhy::Short,
    ),
    // Bytes that are left.
    ("UInt8", 1, &[b"\x01\x02"], 0, 1, CodecWhy::Over),
    ("UInt8", 0, &[b"\x01"], 0, 0, CodecWhy::Over),
    ("Nullable(UInt8)", 1, &[b"\0\0", b""], 0, 1, CodecWhy::Over),
    (
        "Nullable(UInt8)",
        1,
        &[b"\0", b"\x01\x02"],
        1,
        1,
        CodecWhy::Over,
    ),
];

/// Faults of substreams that follow each other.
const IN_FRONT: &[(&str, u64, &[u8], u64, u64, CodecWhy)] = &[
    ("UInt16", 2, b"\x01\0\x02", 0, 1, CodecWhy::Short),
    (
        "Nullable(UInt8)",
        2,
        b"\0\x02\0\0",
        0,
        1,
        CodecWhy::NullByte,
    ),
    ("Nullable(UInt8)", 2, b"\0\x01\x05", 1, 1, CodecWhy::Short),
    (
        "Array(String)",
        1,
        b"\x02\0\0\0\0\0\0\0\x01a\x80\0",
        1,
        1,
        CodecWhy::Length,
    ),
];

#[test]
fn each_fault_has_its_place(rt: HostRuntime) -> Result<(), Fail> {
    for (name, rows, streams, stream, item, why) in FAULTS {
        let found = fault(rt.alloc(), name, *rows, streams)?;
        assert_eq!(rt; found, place(*stream, *item, *why), "at {name}");
    }
    for (name, rows, bytes, stream, item, why) in IN_FRONT {
        let found = front_fault(rt.alloc(), name, *rows, bytes)?;
        assert_eq!(rt; found, place(*stream, *item, *why), "at {name}");
    }
    Ok(())
}
