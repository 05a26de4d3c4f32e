//! The whole sentence.

ghost use Rattle.std.specs.Prelude.{◌≡◌};
ghost use Rattle.mt_tokens.specs.Tokens.{plains};
ghost use Rattle.mt_phrases.specs.Answers.{GivesPhrase};
ghost use Rattle.mt_query_syntax.specs.Reading.{from_at, query_at, query_sentence_at};
ghost use Rattle.mt_query_syntax.specs.Trees.{query_of};

use crate::clause::{Clauses, read_clauses};
use crate::tree::QueryText;
use mt_phrases::{
    NameRule, Selected, SyntaxError, any_name, keyword, selects, skip_database, skip_semicolon,
};
use mt_tokens::{Token, split_first};
use mt_types::List;
use std::alloc::Global;

/// FROM, a table's name, which is passed over, and the clauses.
fn from<'a, 't>(
    alloc: Global,
    tokens: &'t [Token<'a>],
) -> Result<(Clauses, &'t [Token<'a>]), SyntaxError>
    ensures { GivesPhrase (λ x. ((x.0.cond, (x.0.group, x.0.limit)), plains x.1.now)) result (from_at (plains tokens.now)) }
{
    let rest = keyword(tokens, b"FROM")?;
    let rest = skip_database(NameRule::Unreserved, rest)?;
    let rest = any_name(NameRule::Unreserved, rest)?;
    read_clauses(alloc, rest)
}

/// What items and clauses say.
fn query_text(alloc: Global, items: Selected, clauses: Clauses) -> QueryText
    ensures { result ≡ query_of (items, (clauses.cond, (clauses.group, clauses.limit))) }
{
    let Clauses { cond, group, limit } = clauses;
    let group = match group {
        Some(names) => names,
        None => List::new(alloc),
    };
    QueryText {
        items,
        cond,
        group,
        limit,
    }
}

/// SELECT, what it selects, and what follows.
fn query<'a, 't>(
    alloc: Global,
    tokens: &'t [Token<'a>],
) -> Result<(QueryText, &'t [Token<'a>]), SyntaxError>
    ensures { GivesPhrase (λ x. (x.0, plains x.1.now)) result (query_at (plains tokens.now)) }
{
    let rest = keyword(tokens, b"SELECT")?;
    let (items, rest) = selects(NameRule::Unreserved, alloc, rest)?;
    let (clauses, rest) = from(alloc, rest)?;
    Ok((query_text(alloc, items, clauses), rest))
}

/// The sentence that the tokens are.
#[tactic(auto, unfolding(crate::specs::Reading::query_sentence_at))]
pub(crate) fn sentence(alloc: Global, tokens: &[Token<'_>]) -> Result<QueryText, SyntaxError>
    ensures { GivesPhrase (λ x. x) result (query_sentence_at (plains tokens.now)) }
{
    let (query, rest) = query(alloc, tokens)?;
    let rest = skip_semicolon(rest)?;
    match split_first(rest) {
        None => Ok(query),
        Some(_) => Err(SyntaxError::Bad),
    }
}
