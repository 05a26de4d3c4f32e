//! The limits of a command.

/// The bytes of a table's text, at most.
pub const MAX_TABLE_TEXT: u64 = 1_048_576;

/// The bytes of the input of `write`, at most.
pub const MAX_INPUT: usize = 268_435_456;

/// The bytes of all files of a part together, at most.
pub const MAX_FOLDER: u64 = mt_check::MAX_FOLDER;

/// The inputs of a merge, at most; at least 1.
pub const MAX_INPUTS: usize = 64;
