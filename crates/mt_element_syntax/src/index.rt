//! Skip indexes.

ghost use Rattle.mt_tokens.specs.Tokens.{plains};
ghost use Rattle.mt_phrases.specs.Answers.{GivesPhrase};
ghost use Rattle.mt_element_syntax.specs.Reading.{granularity_at, index_at, kind_at};

use crate::tree::{Element, IndexKind};
use mt_phrases::{
    NameRule, SyntaxError, begins_with_word, fixed_word, keyword, name, number, sign,
};
use mt_tokens::{Sign, Token, after_keyword};
use std::alloc::Global;

/// An index, behind INDEX.
#[tactic(auto, unfolding(crate::specs::Reading::index_at))]
pub(crate) fn index<'a, 't>(
    alloc: Global,
    tokens: &'t [Token<'a>],
) -> Result<(Element, &'t [Token<'a>]), SyntaxError>
    ensures { GivesPhrase (λ x. (x.0, plains x.1.now)) result (index_at (plains tokens.now)) }
{
    let (name_, rest) = name(NameRule::Any, alloc, tokens)?;
    let (column, rest) = name(NameRule::Any, alloc, rest)?;
    let rest = keyword(rest, b"TYPE")?;
    let (kind, rest) = kind(rest)?;
    let (granularity, rest) = granularity(rest)?;
    let granularity = granularity.unwrap_or(1);
    Ok((
        Element::Index {
            name: name_,
            column,
            kind,
            granularity,
        },
        rest,
    ))
}

/// `minmax` or `set(N)`.
fn kind<'a, 't>(tokens: &'t [Token<'a>]) -> Result<(IndexKind, &'t [Token<'a>]), SyntaxError>
    ensures { GivesPhrase (λ x. (x.0, plains x.1.now)) result (kind_at (plains tokens.now)) }
{
    if begins_with_word(tokens, b"minmax") {
        let rest = fixed_word(tokens, b"minmax")?;
        return Ok((IndexKind::Minmax, rest));
    }
    let rest = fixed_word(tokens, b"set")?;
    let rest = sign(rest, Sign::Open)?;
    let (number, rest) = number(rest)?;
    let rest = sign(rest, Sign::Close)?;
    Ok((IndexKind::Set(number), rest))
}

/// The number of GRANULARITY, where it is given.
fn granularity<'a, 't>(
    tokens: &'t [Token<'a>],
) -> Result<(Option<u64>, &'t [Token<'a>]), SyntaxError>
    ensures { GivesPhrase (λ x. (x.0, plains x.1.now)) result (granularity_at (plains tokens.now)) }
{
    match after_keyword(tokens, b"GRANULARITY") {
        Some(after) => {
            let (number, rest) = number(after)?;
            Ok((Some(number), rest))
        }
        None => Ok((None, tokens)),
    }
}
