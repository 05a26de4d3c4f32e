//! Names. In a query the words of its clauses and conditions are none, unless in backquotes.

ghost use Rattle.std.specs.Prelude.{◌≡◌, [], ◌∷◌};
ghost use Rattle.std.specs.Option.{option_copied};
ghost use Rattle.mt_tokens.specs.declared.sign.Sign.TheVariants.{Dot};
ghost use Rattle.mt_tokens.specs.Tokens.{as_read, plains};
ghost use Rattle.mt_tokens.specs.Words.{is_sign};
ghost use Rattle.mt_tokens.specs.Splits.{after_if};
ghost use Rattle.mt_phrases.specs.Answers.{GivesPhrase};
ghost use Rattle.mt_phrases.specs.NameRules as defined;
ghost use Rattle.mt_phrases.specs.Phrases.{second_is};
ghost use Rattle.mt_phrases.specs.Readers.{chain, one, skip_if};

use crate::error::SyntaxError;
use crate::lookahead::second_is_sign;
use crate::token::sign;
use mt_tokens::{Sign, Token, after_sign, is_keyword, name_of, split_first};
use mt_types::List;
use std::alloc::Global;

/// Which tokens are names.
#[derive(Clone, Copy)]
pub enum NameRule {
    /// Words of at most 64 bytes, and what stands in backquotes: in a table text.
    Any,
    /// The same but the words of a query's clauses and conditions: in a query text.
    Unreserved,
}

/// Whether the token is a word that a query's clauses begin with.
fn is_clause_word(token: Token<'_>) -> bool
    ensures { result ≡ defined.is_clause_word (as_read token.entry) }
{
    is_keyword(token, b"SELECT")
        || is_keyword(token, b"FROM")
        || is_keyword(token, b"WHERE")
        || is_keyword(token, b"GROUP")
        || is_keyword(token, b"ORDER")
        || is_keyword(token, b"LIMIT")
}

/// Whether the token is a word that a condition has between its names and literals.
fn is_cond_word(token: Token<'_>) -> bool
    ensures { result ≡ defined.is_cond_word (as_read token.entry) }
{
    is_keyword(token, b"AND")
        || is_keyword(token, b"OR")
        || is_keyword(token, b"NOT")
        || is_keyword(token, b"IN")
        || is_keyword(token, b"IS")
        || is_keyword(token, b"NULL")
}

/// The name that the token is in a query.
fn name_in<'a>(token: Token<'a>) -> Option<&'a [u8]>
    ensures { option_copied result ≡ defined.name_in (as_read token.entry) }
{
    if is_clause_word(token) {
        return None;
    }
    if is_cond_word(token) {
        return None;
    }
    name_of(token)
}

/// The name that the token is.
fn name_by<'a>(rule: NameRule, token: Token<'a>) -> Option<&'a [u8]>
    ensures { option_copied result ≡ defined.name_by rule (as_read token.entry) }
{
    match rule {
        NameRule::Any => name_of(token),
        NameRule::Unreserved => name_in(token),
    }
}

/// The name at the front, and what follows it.
pub fn name<'a, 't>(
    rule: NameRule,
    alloc: Global,
    tokens: &'t [Token<'a>],
) -> Result<(List<u8>, &'t [Token<'a>]), SyntaxError>
    ensures { GivesPhrase (λ x. (x.0, plains x.1.now)) result (one (defined.name_by rule) (plains tokens.now)) }
{
    let Some((first, rest)) = split_first(tokens) else {
        return Err(SyntaxError::Bad);
    };
    match name_by(rule, first) {
        Some(name) => Ok((List::of_bytes(alloc, name)?, rest)),
        None => Err(SyntaxError::Bad),
    }
}

/// What follows a name.
pub fn any_name<'a, 't>(
    rule: NameRule,
    tokens: &'t [Token<'a>],
) -> Result<&'t [Token<'a>], SyntaxError>
    ensures { GivesPhrase (λ x. plains x.now) result (after_if (defined.is_name_by rule) (plains tokens.now)) }
{
    let Some((first, rest)) = split_first(tokens) else {
        return Err(SyntaxError::Bad);
    };
    match name_by(rule, first) {
        Some(_) => Ok(rest),
        None => Err(SyntaxError::Bad),
    }
}

/// Names with commas between them.
pub fn names<'a, 't>(
    rule: NameRule,
    alloc: Global,
    tokens: &'t [Token<'a>],
) -> Result<(List<List<u8>>, &'t [Token<'a>]), SyntaxError>
    ensures { GivesPhrase (λ x. (x.0, plains x.1.now)) result (chain (one (defined.name_by rule)) (plains tokens.now)) }
{
    let (first, mut rest) = name(rule, alloc, tokens)?;
    let mut names = List::new(alloc);
    names.push(first)?;
    for _ in 0..rest.len() {
        let Some(after) = after_sign(rest, Sign::Comma) else {
            break;
        };
        let (next, after) = name(rule, alloc, after)?;
        names.push(next)?;
        rest = after;
    }
    Ok((names, rest))
}

/// What follows the name of a database and its point, where they are given.
pub fn skip_database<'a, 't>(
    rule: NameRule,
    tokens: &'t [Token<'a>],
) -> Result<&'t [Token<'a>], SyntaxError>
    ensures { GivesPhrase (λ x. plains x.now) result
        (skip_if (second_is (is_sign Dot)) (defined.is_name_by rule ∷ is_sign Dot ∷ []) (plains tokens.now)) }
{
    if !second_is_sign(tokens, Sign::Dot) {
        return Ok(tokens);
    }
    let rest = any_name(rule, tokens)?;
    sign(rest, Sign::Dot)
}
