//! The limit on types.

/// How many pairs of parentheses of a type may stand around one another.
pub const MAX_TYPE_DEPTH: u8 = 8;
