//! The bytes that the text files give a meaning.

/// It ends a line.
pub const LINE_END: u8 = b'\n';
/// It stands round a name.
pub const BACKQUOTE: u8 = b'`';
/// It stands between a name and a type.
pub const BLANK: u8 = b' ';
