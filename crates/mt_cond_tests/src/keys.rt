//! The boxes between two keys, and conditions on them.

use crate::shared::{both, compared, opposite};
use mt_cond::{End, KeyColumn, Side, cover, may_hold};
use mt_query::{Cond, Op};
use mt_types::{NoMemory, Ty, Value, Width};
use std::alloc::Global;
use std::test::Fail;

/// A key of two numbers.
fn key_columns() -> [KeyColumn; 2] {
    [
        KeyColumn {
            column: 0,
            ty: Ty::UInt(Width::W16),
        },
        KeyColumn {
            column: 1,
            ty: Ty::UInt(Width::W16),
        },
    ]
}

fn key(a: i128, b: i128) -> [Value; 2] {
    [Value::Num(a), Value::Num(b)]
}

fn number_at(end: &End) -> Option<i128> {
    match end {
        End::At(Value::Num(n)) => Some(*n),
        _ => None,
    }
}

/// Whether a side is of these numbers, both inside.
fn is_side(side: &Side, column: u32, lo: i128, hi: i128) -> bool {
    side.column == column
        && number_at(&side.interval.lo) == Some(lo)
        && number_at(&side.interval.hi) == Some(hi)
}

/// The boxes between (1, 5) and (2, 1): column 0, and the least and greatest of column 1.
const BOXES: &[(i128, i128, i128)] = &[(1, 6, 65535), (1, 5, 5), (2, 0, 0), (2, 1, 1)];

#[test]
fn a_cover_has_its_boxes_in_order(rt: HostRuntime) -> Result<(), Fail> {
    let found = cover(rt.alloc(), &key_columns(), &key(1, 5), &key(2, 1))?;
    assert_eq!(rt; found.len(), BOXES.len());
    for (sides, (a, lo, hi)) in found.as_slice().iter().zip(BOXES) {
        match sides.as_slice() {
            [first, second] => {
                assert!(rt; is_side(first, 0, *a, *a) && is_side(second, 1, *lo, *hi));
            }
            _ => return Err(Fail::from("no two sides")),
        }
    }
    Ok(())
}

/// A number, and whether column 1 may be it between (1, 5) and (2, 1).
const HELD: &[(i128, bool)] = &[
    (0, true),
    (1, true),
    (2, false),
    (3, false),
    (4, false),
    (5, true),
    (6, true),
];

#[test]
fn conditions_hold_between_keys(rt: HostRuntime) -> Result<(), Fail> {
    for (number, holds) in HELD {
        let cond = compared(1, Op::Eq, *number);
        assert!(rt; may_hold(&cond, &key_columns(), &key(1, 5), &key(2, 1)) == *holds);
    }
    Ok(())
}

/// Nothing is past the greatest number, nor before the least.
#[test]
fn ends_of_a_type_are_its_numbers(rt: HostRuntime) -> Result<(), Fail> {
    let found = cover(rt.alloc(), &key_columns(), &key(7, 65535), &key(8, 0))?;
    assert_eq!(rt; found.len(), 2);
    Ok(())
}

/// So many comparisons joined by AND.
fn long(alloc: Global, parts: u32) -> Result<Cond, NoMemory> {
    let mut cond = compared(0, Op::Ge, 1);
    for _part in 0..parts {
        cond = both(alloc, cond, compared(1, Op::Ge, 0))?;
    }
    Ok(cond)
}

/// A comparison below so many NOT.
fn deep(alloc: Global, depth: u32) -> Result<Cond, NoMemory> {
    let mut cond = compared(1, Op::Eq, 3);
    for _level in 0..depth {
        cond = opposite(alloc, cond)?;
    }
    Ok(cond)
}

#[test]
fn long_and_deep_conditions_fit_on_the_stack(rt: HostRuntime) -> Result<(), Fail> {
    let cond = long(rt.alloc(), 9_000)?;
    assert!(rt; may_hold(&cond, &key_columns(), &key(1, 5), &key(2, 1)));
    let cond = deep(rt.alloc(), 64)?;
    assert!(rt; !may_hold(&cond, &key_columns(), &key(1, 5), &key(2, 1)));
    Ok(())
}
