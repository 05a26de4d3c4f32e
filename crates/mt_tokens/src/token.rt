//! A token.

use crate::sign::Sign;

/// A token of a text (docs/LANGUAGE.md, "Tokens"). Its bytes are a slice of the text.
#[derive(Clone, Copy)]
pub enum Token<'a> {
    /// A letter or `_`, then letters, digits and `_`, as written; it may be longer than a name.
    Word(&'a [u8]),
    /// A name in backquotes, without these: a word of 1 to 64 bytes.
    Quoted(&'a [u8]),
    /// A text in single quotes: what stands between these, with its escapes.
    Text(&'a [u8]),
    /// One or more digits.
    Digits(&'a [u8]),
    /// Punctuation or a comparison.
    Sign(Sign),
}
