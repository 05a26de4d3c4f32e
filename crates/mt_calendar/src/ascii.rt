//! The bytes between the parts of dates and times (docs/LANGUAGE.md, "Lines").

/// Between year, month and day.
pub const DASH: u8 = b'-';

/// Between hour, minute and second.
pub const COLON: u8 = b':';

/// Between a date and a time.
pub const SPACE: u8 = b' ';
