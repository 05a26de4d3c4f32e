//! Lists of names.

ghost use Rattle.mt_tokens.specs.Tokens.{plains};
ghost use Rattle.mt_phrases.specs.Readers.{to_close};
ghost use Rattle.mt_phrases.specs.Answers.{GivesPhrase};
ghost use Rattle.mt_element_syntax.specs.Reading.{names_at, name_list_at, key_at};

use mt_phrases::{NameRule, SyntaxError, name, names, sign, singleton};
use mt_tokens::{Sign, Token, after_sign};
use mt_types::List;
use std::alloc::Global;

/// Names behind an opening parenthesis, up to the closing one.
fn closed_names<'a, 't>(
    alloc: Global,
    tokens: &'t [Token<'a>],
) -> Result<(List<List<u8>>, &'t [Token<'a>]), SyntaxError>
    ensures { GivesPhrase (λ x. (x.0, plains x.1.now)) result (to_close names_at (plains tokens.now)) }
{
    let (names, rest) = names(NameRule::Any, alloc, tokens)?;
    let rest = sign(rest, Sign::Close)?;
    Ok((names, rest))
}

/// A list of a projection: names with or without parentheses.
pub(crate) fn list<'a, 't>(
    alloc: Global,
    tokens: &'t [Token<'a>],
) -> Result<(List<List<u8>>, &'t [Token<'a>]), SyntaxError>
    ensures { GivesPhrase (λ x. (x.0, plains x.1.now)) result (name_list_at (plains tokens.now)) }
{
    match after_sign(tokens, Sign::Open) {
        Some(inner) => closed_names(alloc, inner),
        None => names(NameRule::Any, alloc, tokens),
    }
}

/// A key of the table: names in parentheses, or one name.
pub fn key<'a, 't>(
    alloc: Global,
    tokens: &'t [Token<'a>],
) -> Result<(List<List<u8>>, &'t [Token<'a>]), SyntaxError>
    ensures { GivesPhrase (λ x. (x.0, plains x.1.now)) result (key_at (plains tokens.now)) }
{
    match after_sign(tokens, Sign::Open) {
        Some(inner) => closed_names(alloc, inner),
        None => {
            let (only, rest) = name(NameRule::Any, alloc, tokens)?;
            Ok((singleton(alloc, only)?, rest))
        }
    }
}
