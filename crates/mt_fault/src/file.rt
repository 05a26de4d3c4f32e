//! Files by name.

use mt_types::List;

/// A file and its bytes.
#[derive(Drop)]
pub struct FileBytes {
    /// Its path, or its name below a part.
    pub name: List<u8>,
    /// What it holds.
    pub bytes: List<u8>,
}
