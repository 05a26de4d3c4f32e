//! Columns of each type: substreams that are read, each by itself and one after another, and then
//! written again.

use crate::reading::{joined, rewritten, rewritten_front};
use std::test::Fail;

/// The name of a type, a number of values, and their substreams as the writer has them.
const COLUMNS: &[(&str, u64, &[&[u8]])] = &[
    ("UInt8", 3, &[b"\x01\x02\xff"]),
    ("Int16", 2, &[b"\xfe\xff\x01\x80"]),
    ("UInt32", 1, &[b"\x01\x02\x03\x04"]),
    ("Int64", 1, &[b"\xff\xff\xff\xff\xff\xff\xff\xff"]),
    ("FixedString(2)", 2, &[b"abcd"]),
    ("String", 3, &[b"\x02ab\0\x01c"]),
    ("Date", 1, &[b"\x02\x01"]),
    ("Nullable(UInt32)", 2, &[b"\x01\0", b"\0\0\0\0\x07\0\0\0"]),
    ("Nullable(UInt8)", 3, &[b"\0\x01\0", b"\x01\0\x02"]),
    ("Nullable(String)", 2, &[b"\0\x01", b"\x02ab\0"]),
    (
        "Array(UInt8)",
        3,
        &[
            b"\x02\0\0\0\0\0\0\0\0\0\0\0\0\0\0\0\x01\0\0\0\0\0\0\0",
            b"\x07\x08\x09",
        ],
    ),
    (
        "Array(Nullable(String))",
        2,
        &[
            b"\0\0\0\0\0\0\0\0\x02\0\0\0\0\0\0\0",
            b"\0\x01",
            b"\x03a'b\0",
        ],
    ),
    (
        "Array(Array(Date))",
        2,
        &[
            b"\x02\0\0\0\0\0\0\0\0\0\0\0\0\0\0\0",
            b"\x01\0\0\0\0\0\0\0\0\0\0\0\0\0\0\0",
            b"\x02\x01",
        ],
    ),
    ("AggregateFunction(count)", 2, &[b"\xac\x02\0"]),
    (
        "AggregateFunction(sum, UInt64)",
        2,
        &[b"\x01\0\0\0\0\0\0\0\xff\xff\xff\xff\xff\xff\xff\xff"],
    ),
    ("AggregateFunction(min, UInt8)", 2, &[b"\0\x01\x07"]),
    ("AggregateFunction(max, Date)", 1, &[b"\x01\x02\x01"]),
];

#[test]
fn columns_are_read_and_written(rt: HostRuntime) -> Result<(), Fail> {
    let alloc = rt.alloc();
    for (name, rows, streams) in COLUMNS {
        let want = joined(alloc, streams)?;
        let bytes = rewritten(alloc, name, *rows, streams)?;
        assert_eq!(rt; bytes.as_slice(), want.as_slice(), "at {name}");
        let mut followed = joined(alloc, streams)?;
        followed.append(b"\xff\xff")?;
        let (read, used) = rewritten_front(alloc, name, *rows, followed.as_slice())?;
        assert_eq!(rt; read.as_slice(), want.as_slice(), "at {name}");
        assert_eq!(rt; used, want.len(), "at {name}");
    }
    Ok(())
}
