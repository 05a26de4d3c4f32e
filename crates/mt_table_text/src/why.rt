//! Why a text is no table's.

ghost use Rattle.std.specs.Prelude.{◌≡◌};
ghost use Rattle.mt_table_text.specs.declared.why.TableError.TheVariants as error;

use mt_types::NoMemory;
use std::error::Error;
use std::fmt;

/// The rule of a table text that is broken, in the order in which the rules are judged.
#[derive(Clone, Copy, Debug, PartialEq)]
pub enum TableWhy {
    /// The text is no sentence of the grammar.
    Syntax,
    /// A type is none of this project's.
    NotAType,
    /// Two columns, two indexes or two projections share a name.
    TwoNames,
    /// A named column isn't there.
    NoSuchColumn,
    /// A sort or primary key isn't allowed.
    BadKey,
    /// A partition expression isn't allowed.
    BadPartition,
    /// A skip index isn't allowed.
    BadSkip,
    /// A projection isn't allowed.
    BadProjection,
    /// A codec is another than NONE.
    Codec,
    /// A setting is out of its range or stands twice.
    Setting,
    /// A count passes its limit.
    TooMany,
}

/// Why no table was read.
#[derive(Clone, Copy, Debug, PartialEq)]
pub enum TableError {
    /// The first rule that the text breaks.
    Bad(TableWhy),
    /// Memory was refused.
    NoMemory,
}

impl fmt::Display for TableWhy {
    /// The variant's name, as a refusal's note prints it.
    fn fmt<W: fmt::Write>(&self, f: &mut fmt::Formatter<W>) -> fmt::Result {
        match self {
            TableWhy::Syntax => write!(f, "Syntax"),
            TableWhy::NotAType => write!(f, "NotAType"),
            TableWhy::TwoNames => write!(f, "TwoNames"),
            TableWhy::NoSuchColumn => write!(f, "NoSuchColumn"),
            TableWhy::BadKey => write!(f, "BadKey"),
            TableWhy::BadPartition => write!(f, "BadPartition"),
            TableWhy::BadSkip => write!(f, "BadSkip"),
            TableWhy::BadProjection => write!(f, "BadProjection"),
            TableWhy::Codec => write!(f, "Codec"),
            TableWhy::Setting => write!(f, "Setting"),
            TableWhy::TooMany => write!(f, "TooMany"),
        }
    }
}

impl Error for TableWhy {}

impl fmt::Display for TableError {
    fn fmt<W: fmt::Write>(&self, f: &mut fmt::Formatter<W>) -> fmt::Result {
        match self {
            TableError::Bad(why) => write!(f, "{why}"),
            TableError::NoMemory => write!(f, "no memory"),
        }
    }
}

impl Error for TableError {}

impl From<NoMemory> for TableError {
    ghost from_gives = { λ _ e. e ≡ error.NoMemory };

    fn from(_error: NoMemory) -> TableError {
        TableError::NoMemory
    }
}
