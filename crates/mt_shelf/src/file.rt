//! Files of a listing.

use mt_types::List;

/// A file of a listing.
#[derive(Drop)]
pub struct Entry {
    /// Its name below the listed part, with `/` between folders.
    pub name: List<u8>,
    /// Its size in bytes.
    pub size: u64,
}
