//! Limits of conditions (docs/LANGUAGE.md, "Queries").

/// The most NOTs and parentheses round one another, both counted together, so that reading a
/// condition takes little of the stack.
pub const MAX_COND_DEPTH: u8 = 64;
