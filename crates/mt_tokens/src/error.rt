//! Why a text has no tokens.

ghost use Rattle.std.specs.Prelude.{◌≡◌};
ghost use Rattle.mt_tokens.specs.declared.error.TokenError.TheVariants as error;

use mt_types::NoMemory;
use std::error::Error;
use std::fmt;

/// Why a text has no tokens.
#[derive(Clone, Copy, Debug)]
pub enum TokenError {
    /// The text is no list of tokens: somewhere in it no token begins.
    Bad,
    /// Memory was refused.
    NoMemory,
}

impl From<NoMemory> for TokenError {
    ghost from_gives = { λ _ e. e ≡ error.NoMemory };

    fn from(_error: NoMemory) -> TokenError {
        TokenError::NoMemory
    }
}

impl fmt::Display for TokenError {
    fn fmt<W: fmt::Write>(&self, f: &mut fmt::Formatter<W>) -> fmt::Result {
        let text = match self {
            TokenError::Bad => "the text is no list of tokens",
            TokenError::NoMemory => "out of memory",
        };
        write!(f, "{text}")
    }
}

impl Error for TokenError {}
