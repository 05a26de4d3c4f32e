//! count.txt: the rows of a folder.

ghost use Rattle.std.specs.Prelude.{◌≡◌, ◌≤◌, decimal, IfOk};
ghost use Rattle.mt_meta.specs.CountReading.{is_count_text, count_reading};
ghost use Rattle.mt_table.specs.declared.limits.TheConstants.{MAX_COLUMNS};

use crate::digits::{all_digits, magnitude};
use itoa::Buffer;
use mt_table::{MAX_CELLS, MAX_COLUMNS, MAX_ROWS};
use mt_types::{List, NoMemory};
use std::alloc::Global;
use std::error::Error;
use std::fmt;

/// Why a text counts no rows of a part.
#[derive(Clone, Copy, Debug, PartialEq)]
pub enum CountWhy {
    /// It is no decimal number from 1 on without leading zeros.
    Syntax,
    /// It is above `MAX_ROWS`, or times the columns above `MAX_CELLS`.
    TooLong,
}

impl fmt::Display for CountWhy {
    fn fmt<W: fmt::Write>(&self, f: &mut fmt::Formatter<W>) -> fmt::Result {
        match self {
            CountWhy::Syntax => write!(f, "the count is no number"),
            CountWhy::TooLong => write!(f, "the count is too large"),
        }
    }
}

impl Error for CountWhy {}

/// The bytes of count.txt: the number of rows in decimal (docs/FORMAT.md, "Metadata").
pub fn count_text(alloc: Global, rows: usize) -> Result<List<u8>, NoMemory>
    ensures { IfOk result (λ text. text ≡ decimal rows) }
{
    let mut buffer = Buffer::new();
    List::of_bytes(alloc, buffer.format(rows).as_bytes())
}

/// The rows that a count.txt counts, of a part with so many columns (docs/FORMAT.md, "Limits").
#[tactic(auto, unfolding(crate::specs::CountReading::count_reading))]
pub fn read_count(text: &[u8], columns: u64) -> Result<u64, CountWhy>
    requires some { 1 ≤ columns }
    requires few { columns ≤ MAX_COLUMNS }
    ensures { result ≡ count_reading columns text.now }
{
    if !is_number(text) {
        return Err(CountWhy::Syntax);
    }
    match magnitude(text) {
        Some(rows) if rows <= MAX_ROWS as u64 && rows * columns <= MAX_CELLS as u64 => Ok(rows),
        _ => Err(CountWhy::TooLong),
    }
}

/// Whether a text is a decimal number from 1 on without leading zeros.
fn is_number(text: &[u8]) -> bool
    ensures { result ≡ is_count_text text.now }
{
    match text {
        [] => false,
        [first, ..] => *first != b'0' && all_digits(text),
    }
}
