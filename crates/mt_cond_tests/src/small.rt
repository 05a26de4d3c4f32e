//! All conditions of a small size over small domains, beside their values on rows: no mask and no cover may
//! deny what a row shows.

ghost use Rattle.std.specs.Prelude.{◌<◌, length};

use crate::shared::{Edge, both, compared, either, opposite, side};
use mt_cond::{KeyColumn, MaskPair, Side, mask, may_hold};
use mt_fold::truth;
use mt_look::Rows;
use mt_query::{Cond, Op};
use mt_types::{List, NoMemory, Row, Ty, Value, Width};
use std::alloc::Global;
use std::test::Fail;

const OPS: [Op; 6] = [Op::Eq, Op::Ne, Op::Lt, Op::Le, Op::Gt, Op::Ge];

/// How many conditions of one column there are.
const ATOMS: usize = 11;

/// One of them.
fn atom(alloc: Global, number: usize) -> Result<Cond, NoMemory> {
    if number < OPS.len() {
        return Ok(compared(0, OPS[number], 1));
    }
    match number {
        6 => {
            let mut literals = List::new(alloc);
            literals.push(Value::Num(0))?;
            literals.push(Value::Num(2))?;
            Ok(Cond::OneOf {
                column: 0,
                literals,
            })
        }
        7 => Ok(Cond::IsNull {
            column: 0,
            negated: false,
        }),
        8 => Ok(compared(1, Op::Eq, 1)),
        9 => Ok(compared(1, Op::Gt, 0)),
        _ => Ok(compared(1, Op::Le, 0)),
    }
}

/// How many conditions there are of two of them.
const CONDS: usize = 3 * ATOMS * ATOMS;

/// One of these.
fn cond(alloc: Global, number: usize) -> Result<Cond, NoMemory> {
    let left = atom(alloc, number / 3 / ATOMS)?;
    let right = atom(alloc, number / 3 % ATOMS)?;
    match number % 3 {
        0 => both(alloc, left, right),
        1 => either(alloc, left, right),
        _ => opposite(alloc, both(alloc, left, right)?),
    }
}

/// The value of column 0 in a row, 0, 1, 2 or none, and that of column 1.
fn values(row: usize) -> (Option<i128>, i128) {
    let first = row / 3;
    if first < 3 {
        (Some(first as i128), (row % 3) as i128)
    } else {
        (None, (row % 3) as i128)
    }
}

/// How many rows there are without a NULL, and in all.
const NUMBERS: usize = 9;

const ROWS: usize = 12;

fn row(alloc: Global, number: usize) -> Result<Row, NoMemory> {
    let (first, second) = values(number);
    let mut row = List::new(alloc);
    match first {
        Some(n) => row.push(Value::Num(n))?,
        None => row.push(Value::Null)?,
    }
    row.push(Value::Num(second))?;
    Ok(row)
}

fn rows(alloc: Global) -> Result<List<Row>, NoMemory> {
    let mut rows = List::new(alloc);
    for number in 0..ROWS {
        rows.push(row(alloc, number)?)?;
    }
    Ok(rows)
}

/// The condition's value on a row.
fn truth_on(cond: &Cond, rows: &[Row], row: usize) -> Option<bool>
    requires { row < length rows.now }
{
    truth(cond, &Rows { list: rows }, row as u64)
}

/// The ends of intervals.
const EDGES: [Edge; 6] = [
    Edge::Free,
    Edge::At(0),
    Edge::At(1),
    Edge::At(2),
    Edge::Past(0),
    Edge::Past(2),
];

fn is_inside(lo: Edge, hi: Edge, value: Option<i128>) -> bool {
    match value {
        Some(n) => lo.is_under(n) && hi.is_over(n),
        None => matches!(hi, Edge::Free),
    }
}

fn denies(pair: MaskPair, truth: Option<bool>) -> bool {
    match truth {
        Some(true) => !pair.may_true,
        Some(false) => !pair.may_false,
        None => false,
    }
}

/// Whether the mask of a box denies what some row of it shows.
fn is_denied(cond: &Cond, rows: &[Row], lo: Edge, hi: Edge) -> bool {
    let sides: [Side; 1] = [side(lo, hi)];
    let pair = mask(cond, &sides);
    for row in 0..rows.len() {
        if is_inside(lo, hi, values(row).0) && denies(pair, truth_on(cond, rows, row)) {
            return true;
        }
    }
    false
}

/// Whether the mask of some box does.
fn is_denied_somewhere(cond: &Cond, rows: &[Row]) -> bool {
    for number in 0..EDGES.len() * EDGES.len() {
        if is_denied(cond, rows, EDGES[number / 6], EDGES[number % 6]) {
            return true;
        }
    }
    false
}

#[test]
fn masks_deny_no_row(rt: HostRuntime) -> Result<(), Fail> {
    let alloc = rt.alloc();
    let rows = rows(alloc)?;
    for number in 0..CONDS {
        let cond = cond(alloc, number)?;
        assert!(rt;
            !is_denied_somewhere(&cond, rows.as_slice()),
            "condition {number}"
        );
    }
    Ok(())
}

fn key_columns() -> [KeyColumn; 2] {
    [
        KeyColumn {
            column: 0,
            ty: Ty::UInt(Width::W8),
        },
        KeyColumn {
            column: 1,
            ty: Ty::UInt(Width::W8),
        },
    ]
}

fn key(number: usize) -> [Value; 2] {
    [
        Value::Num((number / 3) as i128),
        Value::Num((number % 3) as i128),
    ]
}

/// Whether the cover from one of the rows to another denies what some row between them shows.
fn is_lost(cond: &Cond, rows: &[Row], lo: usize, hi: usize) -> bool {
    if may_hold(cond, &key_columns(), &key(lo), &key(hi)) {
        return false;
    }
    for row in lo..rows.len() {
        if row <= hi && truth_on(cond, rows, row) == Some(true) {
            return true;
        }
    }
    false
}

/// Whether some cover does.
fn is_lost_somewhere(cond: &Cond, rows: &[Row]) -> bool {
    for number in 0..NUMBERS * NUMBERS {
        let (lo, hi) = (number / NUMBERS, number % NUMBERS);
        if lo <= hi && is_lost(cond, rows, lo, hi) {
            return true;
        }
    }
    false
}

#[test]
fn covers_lose_no_row(rt: HostRuntime) -> Result<(), Fail> {
    let alloc = rt.alloc();
    let rows = rows(alloc)?;
    for number in 0..CONDS {
        let cond = cond(alloc, number)?;
        assert!(rt;
            !is_lost_somewhere(&cond, rows.as_slice()),
            "condition {number}"
        );
    }
    Ok(())
}
