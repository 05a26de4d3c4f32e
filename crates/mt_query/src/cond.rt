//! The condition of a query. A `u32` names a column by its place in the table, from 0.

use mt_cond_syntax::Op;
use mt_types::{Boxed, List, Value};

/// A condition on a row: true, false or NULL (docs/LANGUAGE.md, "Queries"; ClickHouse: an expression of `WHERE`).
#[derive(Drop)]
pub enum Cond {
    /// The column's value compared with a literal; NULL on NULL.
    Cmp { column: u32, op: Op, literal: Value },
    /// The column's value is one of the literals, of which there is at least one; NULL on NULL.
    OneOf { column: u32, literals: List<Value> },
    /// The column's value is NULL, or is not where `negated`; never NULL itself.
    IsNull { column: u32, negated: bool },
    /// The column's text begins with these bytes; NULL on NULL.
    Starts { column: u32, prefix: List<u8> },
    /// Some element of the column's array is the literal; never NULL.
    Has { column: u32, literal: Value },
    /// Both hold, by three-valued logic.
    And(Boxed<Cond>, Boxed<Cond>),
    /// One of them holds, by three-valued logic.
    Or(Boxed<Cond>, Boxed<Cond>),
    /// It doesn't hold; NULL on NULL.
    Not(Boxed<Cond>),
}
