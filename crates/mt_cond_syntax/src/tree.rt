//! Conditions and literals as trees. Names are without their backquotes, numbers are values, and texts are
//! without their escapes.

use crate::op::Op;
use mt_types::{Boxed, List};

/// A condition (ClickHouse: an expression of `WHERE`).
#[derive(Drop)]
pub enum CondText {
    /// A column compared with a literal.
    Cmp {
        /// The column's name.
        name: List<u8>,
        /// The comparison.
        op: Op,
        /// What the column is compared with.
        literal: Literal,
    },
    /// A column that is IN a list.
    OneOf {
        /// The column's name.
        name: List<u8>,
        /// The literals of the list, at least one.
        literals: List<Literal>,
    },
    /// A column that IS NULL.
    IsNull {
        /// The column's name.
        name: List<u8>,
        /// Whether it is IS NOT NULL.
        negated: bool,
    },
    /// `startsWith` of a column and a text.
    Starts {
        /// The column's name.
        name: List<u8>,
        /// What the column's text is to begin with.
        prefix: List<u8>,
    },
    /// `has` of a column and a literal.
    Has {
        /// The column's name.
        name: List<u8>,
        /// What is to be one of the elements.
        literal: Literal,
    },
    /// AND of two conditions.
    And(Boxed<CondText>, Boxed<CondText>),
    /// OR of two conditions.
    Or(Boxed<CondText>, Boxed<CondText>),
    /// NOT of a condition.
    Not(Boxed<CondText>),
}

/// A literal.
#[derive(Drop)]
pub enum Literal {
    /// Digits: their number, below 2^128; none where it isn't.
    Number(Option<u128>),
    /// A minus and digits: their number, from -2^127 on; none where it isn't.
    Negative(Option<i128>),
    /// A text in quotes: the bytes that it stands for.
    Text(List<u8>),
}
