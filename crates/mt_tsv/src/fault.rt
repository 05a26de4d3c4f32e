//! Why a text is no rows.

ghost use Rattle.std.specs.Prelude.{◌≡◌};
ghost use Rattle.mt_tsv.specs.declared.fault.FieldError.TheVariants as field;
ghost use Rattle.mt_tsv.specs.declared.fault.RowError.TheVariants as row;

use mt_types::NoMemory;
use std::error::Error;
use std::fmt;

/// What is wrong with a line or with its first bad field (docs/LANGUAGE.md, "Lines").
#[derive(Clone, Copy, Debug, PartialEq)]
pub enum RowWhy {
    /// The text ends before the line does.
    NoLineEnd,
    /// The line has another number of fields than the table has columns.
    Columns,
    /// NULL stands where the type has none.
    Null,
    /// An integer is no digits, with or without a minus before them.
    Number,
    /// An integer is outside its type.
    Range,
    /// A text has more bytes than its type allows, or an array more elements than its limit.
    TooLong,
    /// A backslash begins none of the eight escapes.
    Escape,
    /// A date isn't YYYY-MM-DD, or no day from 1970-01-01 to 2149-06-06; or a date and time isn't
    /// YYYY-MM-DD hh:mm:ss, or no second from 1970-01-01 00:00:00 to 2106-02-07 06:28:15.
    Date,
    /// An array's brackets or quotes are out of form.
    List,
}

/// Why a text is no rows.
#[derive(Clone, Copy, Debug, PartialEq)]
pub enum RowError {
    /// The first line that is out of form, counted from 1, and its first why.
    At { line: u64, why: RowWhy },
    /// A line makes more than `MAX_ROWS` rows.
    Rows,
    /// A line makes more than `MAX_CELLS` cells.
    Cells,
    /// Memory was refused.
    NoMemory,
}

/// Why a line or a field has no value.
#[derive(Clone, Copy)]
pub enum FieldError {
    /// What is wrong with it.
    Bad(RowWhy),
    /// Memory was refused.
    NoMemory,
}

impl From<NoMemory> for FieldError {
    ghost from_gives = { λ _ e. e ≡ field.NoMemory };

    fn from(_error: NoMemory) -> FieldError {
        FieldError::NoMemory
    }
}

impl From<NoMemory> for RowError {
    ghost from_gives = { λ _ e. e ≡ row.NoMemory };

    fn from(_error: NoMemory) -> RowError {
        RowError::NoMemory
    }
}

impl fmt::Display for RowWhy {
    fn fmt<W: fmt::Write>(&self, f: &mut fmt::Formatter<W>) -> fmt::Result {
        let text = match self {
            RowWhy::NoLineEnd => "the text ends inside the line",
            RowWhy::Columns => "the line has another number of fields than the table has columns",
            RowWhy::Null => "NULL stands where the type has none",
            RowWhy::Number => "an integer is no digits",
            RowWhy::Range => "an integer is outside its type",
            RowWhy::TooLong => "a text or an array is too long",
            RowWhy::Escape => "a backslash begins no escape",
            RowWhy::Date => "a date is no day or second of the type",
            RowWhy::List => "the brackets or quotes of an array are out of form",
        };
        write!(f, "{text}")
    }
}

impl Error for RowWhy {}

impl fmt::Display for RowError {
    fn fmt<W: fmt::Write>(&self, f: &mut fmt::Formatter<W>) -> fmt::Result {
        match self {
            RowError::At { line, why } => write!(f, "line {line}: {why}"),
            RowError::Rows => write!(f, "too many rows"),
            RowError::Cells => write!(f, "too many cells"),
            RowError::NoMemory => write!(f, "no memory"),
        }
    }
}

impl Error for RowError {}
