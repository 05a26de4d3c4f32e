//! Literals.

ghost use Rattle.mt_tokens.specs.Tokens.{plains};
ghost use Rattle.mt_phrases.specs.Answers.{GivesPhrase};
ghost use Rattle.mt_phrases.specs.Readers.{chain, in_parens, one};
ghost use Rattle.mt_cond_syntax.specs.Reading.{literal_at};
ghost use Rattle.mt_cond_syntax.specs.Terminals.{literal_of, negative_in};

use crate::number::negative_of;
use crate::tree::Literal;
use mt_phrases::{SyntaxError, sign};
use mt_tokens::{Sign, Token, after_sign, split_first, unescaped, wide_number_of};
use mt_types::List;
use std::alloc::Global;

/// The digits behind a minus.
fn negative<'a, 't>(tokens: &'t [Token<'a>]) -> Result<(Literal, &'t [Token<'a>]), SyntaxError>
    ensures { GivesPhrase (λ x. (x.0, plains x.1.now)) result (one negative_in (plains tokens.now)) }
{
    match split_first(tokens) {
        Some((Token::Digits(digits), rest)) => Ok((Literal::Negative(negative_of(digits)), rest)),
        _ => Err(SyntaxError::Bad),
    }
}

/// A literal without a minus.
fn plain<'a, 't>(
    alloc: Global,
    tokens: &'t [Token<'a>],
) -> Result<(Literal, &'t [Token<'a>]), SyntaxError>
    ensures { GivesPhrase (λ x. (x.0, plains x.1.now)) result (one literal_of (plains tokens.now)) }
{
    match split_first(tokens) {
        Some((Token::Digits(digits), rest)) => Ok((Literal::Number(wide_number_of(digits)), rest)),
        Some((Token::Text(text), rest)) => Ok((Literal::Text(unescaped(alloc, text)?), rest)),
        _ => Err(SyntaxError::Bad),
    }
}

/// A literal.
pub(crate) fn literal<'a, 't>(
    alloc: Global,
    tokens: &'t [Token<'a>],
) -> Result<(Literal, &'t [Token<'a>]), SyntaxError>
    ensures { GivesPhrase (λ x. (x.0, plains x.1.now)) result (literal_at (plains tokens.now)) }
{
    match after_sign(tokens, Sign::Minus) {
        Some(after) => negative(after),
        None => plain(alloc, tokens),
    }
}

/// Literals with commas between them.
fn literal_items<'a, 't>(
    alloc: Global,
    tokens: &'t [Token<'a>],
) -> Result<(List<Literal>, &'t [Token<'a>]), SyntaxError>
    ensures { GivesPhrase (λ x. (x.0, plains x.1.now)) result (chain literal_at (plains tokens.now)) }
{
    let (first, mut rest) = literal(alloc, tokens)?;
    let mut literals = List::new(alloc);
    literals.push(first)?;
    for _ in 0..rest.len() {
        let Some(after) = after_sign(rest, Sign::Comma) else {
            break;
        };
        let (next, after) = literal(alloc, after)?;
        literals.push(next)?;
        rest = after;
    }
    Ok((literals, rest))
}

/// Literals in parentheses.
pub(crate) fn literal_list<'a, 't>(
    alloc: Global,
    tokens: &'t [Token<'a>],
) -> Result<(List<Literal>, &'t [Token<'a>]), SyntaxError>
    ensures { GivesPhrase (λ x. (x.0, plains x.1.now)) result (in_parens (chain literal_at) (plains tokens.now)) }
{
    let rest = sign(tokens, Sign::Open)?;
    let (literals, rest) = literal_items(alloc, rest)?;
    let rest = sign(rest, Sign::Close)?;
    Ok((literals, rest))
}
