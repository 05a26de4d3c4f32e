//! The limits on types, values and names (docs/FORMAT.md, "Limits"; docs/LANGUAGE.md, "Tokens").

/// The most bytes of a `String`, 16 MiB: several of that length fit into one frame.
pub const MAX_TEXT: usize = 16_777_216;

/// The most bytes of a `FixedString`: 1,024 values of that length fit into one frame.
pub const MAX_FIXED_STRING: u32 = 65_535;

/// The most elements of an array: at 64 bytes a value they take 64 MiB of memory.
pub const MAX_ELEMENTS: usize = 1_048_576;

/// The most arrays inside each other, so that recursion over a type or a value is shallow.
pub const MAX_ARRAY_DEPTH: u32 = 3;

/// The most bytes of a name. A longer word is one token, and no name.
pub const MAX_NAME: usize = 64;
