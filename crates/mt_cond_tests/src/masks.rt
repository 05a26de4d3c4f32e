//! The table of masks, row by row.

use crate::shared::{Edge, compared, side, text};
use mt_cond::{End, Interval, MaskPair, Side, mask};
use mt_query::{Cond, Op};
use mt_types::{List, NoMemory, Value};
use std::alloc::Global;
use std::test::Fail;

/// An operator, the two ends, and for each of the literals 1 to 5 whether it may be true (`t`) and whether it may be
/// false (`f`) on the values between the ends.
const COMPARED: &[(Op, Edge, Edge, &[u8], &[u8])] = &[
    (Op::Eq, Edge::At(2), Edge::At(4), b"-ttt-", b"fffff"),
    (Op::Ne, Edge::At(2), Edge::At(4), b"ttttt", b"-fff-"),
    (Op::Lt, Edge::At(2), Edge::At(4), b"--ttt", b"ffff-"),
    (Op::Le, Edge::At(2), Edge::At(4), b"-tttt", b"fff--"),
    (Op::Gt, Edge::At(2), Edge::At(4), b"ttt--", b"-ffff"),
    (Op::Ge, Edge::At(2), Edge::At(4), b"tttt-", b"--fff"),
    (Op::Eq, Edge::Past(2), Edge::Past(4), b"--t--", b"fffff"),
    (Op::Ne, Edge::Past(2), Edge::Past(4), b"ttttt", b"--f--"),
    (Op::Lt, Edge::Past(2), Edge::Past(4), b"--ttt", b"fff--"),
    (Op::Le, Edge::Past(2), Edge::Past(4), b"--ttt", b"fff--"),
    (Op::Gt, Edge::Past(2), Edge::Past(4), b"ttt--", b"--fff"),
    (Op::Ge, Edge::Past(2), Edge::Past(4), b"ttt--", b"--fff"),
    (Op::Eq, Edge::At(3), Edge::At(3), b"--t--", b"ff-ff"),
    (Op::Ne, Edge::At(3), Edge::At(3), b"tt-tt", b"--f--"),
    (Op::Lt, Edge::Free, Edge::At(3), b"ttttt", b"fff--"),
    (Op::Gt, Edge::At(3), Edge::Free, b"ttttt", b"--fff"),
];

#[test]
fn comparisons_have_their_masks() -> Result<(), Fail> {
    for (op, lo, hi, may_true, may_false) in COMPARED {
        let sides = [side(*lo, *hi)];
        for (k, (yes, no)) in may_true.iter().zip(*may_false).enumerate() {
            let found = mask(&compared(0, *op, k as i128 + 1), &sides);
            if found.may_true != (*yes == b't') || found.may_false != (*no == b'f') {
                return Err(Fail::from("another mask"));
            }
        }
    }
    Ok(())
}

/// An end at a text: nowhere, inside, or outside.
type Text = (u8, &'static [u8]);

/// The two ends, a prefix, and whether startsWith may be true and may be false.
const BEGUN: &[(Text, Text, &[u8], bool, bool)] = &[
    ((b'a', b"b"), (b'a', b"d"), b"c", true, true),
    ((b'a', b"ca"), (b'a', b"cz"), b"c", true, false),
    ((b'p', b"ca"), (b'p', b"cz"), b"c", true, false),
    ((b'a', b"d"), (b'f', b""), b"c", false, true),
    ((b'p', b"cz"), (b'a', b"d"), b"c", true, true),
    ((b'f', b""), (b'p', b"c"), b"c", false, true),
    ((b'f', b""), (b'a', b"c"), b"c", true, true),
    ((b'f', b""), (b'a', b"b"), b"c", false, true),
    ((b'a', b"\xff\xff"), (b'f', b""), b"\xff", true, true),
    ((b'a', b"b"), (b'f', b""), b"a\xff", false, true),
    ((b'a', b"a"), (b'a', b"b"), b"", true, false),
];

fn end(alloc: Global, (kind, bytes): Text) -> Result<End, NoMemory> {
    match kind {
        b'a' => Ok(End::At(text(alloc, bytes)?)),
        b'p' => Ok(End::Past(text(alloc, bytes)?)),
        _ => Ok(End::Free),
    }
}

fn begun(alloc: Global, lo: Text, hi: Text, prefix: &[u8]) -> Result<MaskPair, NoMemory> {
    let interval = Interval {
        lo: end(alloc, lo)?,
        hi: end(alloc, hi)?,
    };
    let cond = Cond::Starts {
        column: 0,
        prefix: List::of_bytes(alloc, prefix)?,
    };
    Ok(mask(
        &cond,
        &[Side {
            column: 0,
            interval,
        }],
    ))
}

#[test]
fn prefixes_have_their_masks(rt: HostRuntime) -> Result<(), Fail> {
    for (lo, hi, prefix, may_true, may_false) in BEGUN {
        let found = begun(rt.alloc(), *lo, *hi, prefix)?;
        assert!(rt; found.may_true == *may_true && found.may_false == *may_false);
    }
    Ok(())
}

#[test]
fn other_conditions_may_be_both(rt: HostRuntime) -> Result<(), Fail> {
    let sides = [side(Edge::At(3), Edge::At(3))];
    let conds = [
        Cond::IsNull {
            column: 0,
            negated: false,
        },
        Cond::Has {
            column: 0,
            literal: Value::Num(3),
        },
        compared(1, Op::Eq, 3),
    ];
    for cond in &conds {
        let found = mask(cond, &sides);
        assert!(rt; found.may_true && found.may_false);
    }
    Ok(())
}
