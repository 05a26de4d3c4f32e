//! Why a text is no query over a table.

ghost use Rattle.std.specs.Prelude.{◌≡◌};
ghost use Rattle.mt_query.specs.declared.why.QueryError.TheVariants as error;

use mt_types::NoMemory;
use std::error::Error;
use std::fmt;

/// The rule of a query text that is broken, in the order in which the rules are judged.
#[derive(Clone, Copy, Debug, PartialEq)]
pub enum QueryWhy {
    /// The text has more than 65,536 bytes.
    TooMany,
    /// The text is no sentence of the grammar.
    Syntax,
    /// A named column isn't there.
    NoSuchColumn,
    /// A plain item of a query with groups isn't in GROUP BY.
    NotGrouped,
    /// A literal doesn't suit its column.
    BadLiteral,
    /// An aggregate is over a column of another type.
    BadAggregate,
}

/// Why no query was read.
#[derive(Clone, Copy, Debug, PartialEq)]
pub enum QueryError {
    /// The first rule that the text breaks.
    Bad(QueryWhy),
    /// Memory was refused.
    NoMemory,
}

impl fmt::Display for QueryWhy {
    /// The variant's name, as a refusal's note prints it.
    fn fmt<W: fmt::Write>(&self, f: &mut fmt::Formatter<W>) -> fmt::Result {
        match self {
            QueryWhy::TooMany => write!(f, "TooMany"),
            QueryWhy::Syntax => write!(f, "Syntax"),
            QueryWhy::NoSuchColumn => write!(f, "NoSuchColumn"),
            QueryWhy::NotGrouped => write!(f, "NotGrouped"),
            QueryWhy::BadLiteral => write!(f, "BadLiteral"),
            QueryWhy::BadAggregate => write!(f, "BadAggregate"),
        }
    }
}

impl Error for QueryWhy {}

impl fmt::Display for QueryError {
    fn fmt<W: fmt::Write>(&self, f: &mut fmt::Formatter<W>) -> fmt::Result {
        match self {
            QueryError::Bad(why) => write!(f, "{why}"),
            QueryError::NoMemory => write!(f, "no memory"),
        }
    }
}

impl Error for QueryError {}

impl From<NoMemory> for QueryError {
    ghost from_gives = { λ _ e. e ≡ error.NoMemory };

    fn from(_error: NoMemory) -> QueryError {
        QueryError::NoMemory
    }
}
