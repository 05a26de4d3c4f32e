//! The bytes that lines are made of (docs/LANGUAGE.md, "Lines").

/// Between the fields of a line.
pub const TAB: u8 = b'\t';

/// At the end of each line.
pub const LINE_END: u8 = b'\n';

/// Begins an escape in a text.
pub const BACKSLASH: u8 = b'\\';

/// Before the digits of a negative number.
pub const MINUS: u8 = b'-';

/// Round each text, date and moment in an array.
pub const QUOTE: u8 = b'\'';

/// Begins an array.
pub const OPEN: u8 = b'[';

/// Ends an array.
pub const CLOSE: u8 = b']';

/// Between the elements of an array.
pub const COMMA: u8 = b',';

/// Allowed round the elements of an array; between a date and a time.
pub const SPACE: u8 = b' ';
