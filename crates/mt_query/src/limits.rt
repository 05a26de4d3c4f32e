//! The limit on query texts (docs/LANGUAGE.md, "Queries").

/// The most bytes of a query text.
pub const MAX_QUERY_TEXT: usize = 65_536;
