//! What is selected, by a projection or a query.

ghost use Rattle.mt_tokens.specs.Tokens.{plains};
ghost use Rattle.mt_phrases.specs.Answers.{GivesPhrase};
ghost use Rattle.mt_phrases.specs.Readers.{one};
ghost use Rattle.mt_phrases.specs.Selections.{count_at};
ghost use Rattle.mt_phrases.specs.Terminals.{agg_of};

use crate::error::SyntaxError;
use crate::token::{keyword, sign};
use mt_tokens::{Sign, Token, is_keyword, split_first};
use mt_types::{Agg, List};

/// What is selected.
#[derive(Drop)]
pub enum Selected {
    /// `*`.
    All,
    /// Items, at least one.
    Items(List<Selection>),
}

/// One item of what is selected.
#[derive(Drop)]
pub enum Selection {
    /// A column.
    Column(List<u8>),
    /// `count()`.
    Count,
    /// `sum`, `min` or `max` of a column.
    Of(Agg, List<u8>),
}

/// `count()`.
pub fn count<'a, 't>(tokens: &'t [Token<'a>]) -> Result<(Selection, &'t [Token<'a>]), SyntaxError>
    ensures { GivesPhrase (λ x. (x.0, plains x.1.now)) result (count_at (plains tokens.now)) }
{
    let rest = keyword(tokens, b"count")?;
    let rest = sign(rest, Sign::Open)?;
    let rest = sign(rest, Sign::Close)?;
    Ok((Selection::Count, rest))
}

/// The name of an aggregate function.
pub fn agg<'a, 't>(tokens: &'t [Token<'a>]) -> Result<(Agg, &'t [Token<'a>]), SyntaxError>
    ensures { GivesPhrase (λ x. (x.0, plains x.1.now)) result (one agg_of (plains tokens.now)) }
{
    let Some((first, rest)) = split_first(tokens) else {
        return Err(SyntaxError::Bad);
    };
    if is_keyword(first, b"sum") {
        return Ok((Agg::Sum, rest));
    }
    if is_keyword(first, b"min") {
        return Ok((Agg::Min, rest));
    }
    if is_keyword(first, b"max") {
        return Ok((Agg::Max, rest));
    }
    Err(SyntaxError::Bad)
}
