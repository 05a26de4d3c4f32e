//! Clauses read.

ghost use Rattle.std.specs.Prelude.{◌≡◌, ◌∷◌, [], codes};
ghost use Rattle.mt_tokens.specs.declared.sign.Sign.TheVariants.{Open, Close};
ghost use Rattle.mt_tokens.specs.Tokens.{as_read, plains};
ghost use Rattle.mt_tokens.specs.Words.{is_keyword, is_sign};
ghost use Rattle.mt_phrases.specs.Phrases.{first_is};
ghost use Rattle.mt_phrases.specs.Readers.{after, with_tree, skip};
ghost use Rattle.mt_phrases.specs.Answers.{GivesPhrase};
ghost use Rattle.mt_syntax.specs.declared.clause.Clause.TheVariants as clause;
ghost use Rattle.mt_element_syntax.specs.Reading.{key_at};
ghost use Rattle.mt_syntax.specs.Reading.{clause_at, parens_and_clauses_at, is_clause_key, expressions_at};

use crate::clause::{Clause, Clauses};
use crate::partition::expressions;
use crate::setting::settings;
use mt_element_syntax::key;
use mt_phrases::{SyntaxError, keyword, sign};
use mt_tokens::{Sign, Token, after_keyword, after_sign, is_keyword, split_first};
use std::alloc::Global;

/// `()`, where it is given, and as many clauses as there are, each at most once.
pub(crate) fn read_clauses<'a, 't>(
    alloc: Global,
    tokens: &'t [Token<'a>],
) -> Result<(Clauses, &'t [Token<'a>]), SyntaxError>
    ensures { GivesPhrase (λ x. (x.0, plains x.1.now)) result (parens_and_clauses_at (plains tokens.now)) }
{
    let mut clauses = Clauses::none();
    let mut rest = skip_parens(tokens)?;
    for _ in 0..rest.len() {
        if !begins_with_clause(rest) {
            break;
        }
        let (next, after) = read_clause(alloc, rest)?;
        clauses.add(next)?;
        rest = after;
    }
    Ok((clauses, rest))
}

/// What follows `()`, where it is given.
fn skip_parens<'a, 't>(tokens: &'t [Token<'a>]) -> Result<&'t [Token<'a>], SyntaxError>
    ensures { GivesPhrase (λ x. plains x.now) result
        (skip (is_sign Open) (is_sign Close ∷ []) (plains tokens.now)) }
{
    match after_sign(tokens, Sign::Open) {
        Some(after) => sign(after, Sign::Close),
        None => Ok(tokens),
    }
}

/// Whether a clause begins here.
fn begins_with_clause(tokens: &[Token<'_>]) -> bool
    ensures { result ≡ first_is is_clause_key (plains tokens.now) }
{
    match split_first(tokens) {
        Some((first, _)) => is_clause_key(first),
        None => false,
    }
}

/// Whether a clause begins with this token.
fn is_clause_key(token: Token<'_>) -> bool
    ensures { result ≡ is_clause_key (as_read token.entry) }
{
    is_keyword(token, b"PARTITION")
        || is_keyword(token, b"PRIMARY")
        || is_keyword(token, b"ORDER")
        || is_keyword(token, b"SETTINGS")
}

/// A clause.
#[tactic(auto, unfolding(crate::specs::Reading::clause_at))]
fn read_clause<'a, 't>(
    alloc: Global,
    tokens: &'t [Token<'a>],
) -> Result<(Clause, &'t [Token<'a>]), SyntaxError>
    ensures { GivesPhrase (λ x. (x.0, plains x.1.now)) result (clause_at (plains tokens.now)) }
{
    if let Some(after) = after_keyword(tokens, b"PARTITION") {
        return partition_by(alloc, after);
    }
    if let Some(after) = after_keyword(tokens, b"PRIMARY") {
        return primary_key(alloc, after);
    }
    if let Some(after) = after_keyword(tokens, b"ORDER") {
        return order_by(alloc, after);
    }
    let rest = keyword(tokens, b"SETTINGS")?;
    let (settings, rest) = settings(alloc, rest)?;
    Ok((Clause::Settings(settings), rest))
}

/// PARTITION BY, behind PARTITION.
fn partition_by<'a, 't>(
    alloc: Global,
    tokens: &'t [Token<'a>],
) -> Result<(Clause, &'t [Token<'a>]), SyntaxError>
    ensures { GivesPhrase (λ x. (x.0, plains x.1.now)) result (after (is_keyword (codes "BY")) (with_tree clause.Partition expressions_at) (plains tokens.now)) }
{
    let rest = keyword(tokens, b"BY")?;
    let (expressions, rest) = expressions(alloc, rest)?;
    Ok((Clause::Partition(expressions), rest))
}

/// PRIMARY KEY, behind PRIMARY.
fn primary_key<'a, 't>(
    alloc: Global,
    tokens: &'t [Token<'a>],
) -> Result<(Clause, &'t [Token<'a>]), SyntaxError>
    ensures { GivesPhrase (λ x. (x.0, plains x.1.now)) result (after (is_keyword (codes "KEY")) (with_tree clause.Primary key_at) (plains tokens.now)) }
{
    let rest = keyword(tokens, b"KEY")?;
    let (names, rest) = key(alloc, rest)?;
    Ok((Clause::Primary(names), rest))
}

/// ORDER BY, behind ORDER.
fn order_by<'a, 't>(
    alloc: Global,
    tokens: &'t [Token<'a>],
) -> Result<(Clause, &'t [Token<'a>]), SyntaxError>
    ensures { GivesPhrase (λ x. (x.0, plains x.1.now)) result (after (is_keyword (codes "BY")) (with_tree clause.Order key_at) (plains tokens.now)) }
{
    let rest = keyword(tokens, b"BY")?;
    let (order, rest) = key(alloc, rest)?;
    Ok((Clause::Order(order), rest))
}
