//! Conditions and intervals that the tests are of.

use mt_cond::{End, Interval, Side};
use mt_query::{Cond, Op};
use mt_types::{Boxed, List, NoMemory, Value};
use std::alloc::Global;

/// An end at a number.
#[derive(Clone, Copy)]
pub enum Edge {
    /// Nowhere.
    Free,
    /// At this number, which is inside.
    At(i128),
    /// At this number, which is outside.
    Past(i128),
}

impl Edge {
    /// The end of an interval that it is.
    pub fn end(self) -> End {
        match self {
            Edge::Free => End::Free,
            Edge::At(n) => End::At(Value::Num(n)),
            Edge::Past(n) => End::Past(Value::Num(n)),
        }
    }

    /// As a lower end: the number is inside.
    pub fn is_under(self, number: i128) -> bool {
        match self {
            Edge::Free => true,
            Edge::At(n) => n <= number,
            Edge::Past(n) => n < number,
        }
    }

    /// As an upper end: the number is inside.
    pub fn is_over(self, number: i128) -> bool {
        match self {
            Edge::Free => true,
            Edge::At(n) => number <= n,
            Edge::Past(n) => number < n,
        }
    }
}

/// The interval of column 0.
pub fn side(lo: Edge, hi: Edge) -> Side {
    Side {
        column: 0,
        interval: Interval {
            lo: lo.end(),
            hi: hi.end(),
        },
    }
}

/// A text as a value.
pub fn text(alloc: Global, bytes: &[u8]) -> Result<Value, NoMemory> {
    Ok(Value::Text(List::of_bytes(alloc, bytes)?))
}

/// A column compared with a number.
pub fn compared(column: u32, op: Op, number: i128) -> Cond {
    Cond::Cmp {
        column,
        op,
        literal: Value::Num(number),
    }
}

/// Both conditions.
pub fn both(alloc: Global, left: Cond, right: Cond) -> Result<Cond, NoMemory> {
    Ok(Cond::And(Boxed::new(alloc, left)?, Boxed::new(alloc, right)?))
}

/// Either condition.
pub fn either(alloc: Global, left: Cond, right: Cond) -> Result<Cond, NoMemory> {
    Ok(Cond::Or(Boxed::new(alloc, left)?, Boxed::new(alloc, right)?))
}

/// The opposite of a condition.
pub fn opposite(alloc: Global, inner: Cond) -> Result<Cond, NoMemory> {
    Ok(Cond::Not(Boxed::new(alloc, inner)?))
}
