//! The clauses behind a table's name.

ghost use Rattle.mt_tokens.specs.Tokens.{plains};
ghost use Rattle.mt_phrases.specs.Answers.{GivesPhrase};
ghost use Rattle.mt_query_syntax.specs.Reading.{query_clauses_at, query_group_at, limit_at, query_order_at, where_at};

use mt_cond_syntax::{CondText, cond};
use mt_phrases::{NameRule, SyntaxError, keyword, names, number};
use mt_tokens::{Token, after_keyword};
use mt_types::List;
use std::alloc::Global;

/// What stands behind a table's name.
#[derive(Drop)]
pub(crate) struct Clauses {
    /// The condition of WHERE.
    pub(crate) cond: Option<CondText>,
    /// The names of GROUP BY.
    pub(crate) group: Option<List<List<u8>>>,
    /// The number of LIMIT.
    pub(crate) limit: Option<u64>,
}

/// The condition of WHERE, where it is given.
fn where_cond<'a, 't>(
    alloc: Global,
    tokens: &'t [Token<'a>],
) -> Result<(Option<CondText>, &'t [Token<'a>]), SyntaxError>
    ensures { GivesPhrase (λ x. (x.0, plains x.1.now)) result (where_at (plains tokens.now)) }
{
    match after_keyword(tokens, b"WHERE") {
        Some(after) => {
            let (cond, rest) = cond(alloc, after)?;
            Ok((Some(cond), rest))
        }
        None => Ok((None, tokens)),
    }
}

/// The names of GROUP BY, where it is given.
fn group<'a, 't>(
    alloc: Global,
    tokens: &'t [Token<'a>],
) -> Result<(Option<List<List<u8>>>, &'t [Token<'a>]), SyntaxError>
    ensures { GivesPhrase (λ x. (x.0, plains x.1.now)) result (query_group_at (plains tokens.now)) }
{
    match after_keyword(tokens, b"GROUP") {
        Some(after) => {
            let rest = keyword(after, b"BY")?;
            let (names, rest) = names(NameRule::Unreserved, alloc, rest)?;
            Ok((Some(names), rest))
        }
        None => Ok((None, tokens)),
    }
}

/// The number of LIMIT, where it is given.
fn limit<'a, 't>(tokens: &'t [Token<'a>]) -> Result<(Option<u64>, &'t [Token<'a>]), SyntaxError>
    ensures { GivesPhrase (λ x. (x.0, plains x.1.now)) result (limit_at (plains tokens.now)) }
{
    match after_keyword(tokens, b"LIMIT") {
        Some(after) => {
            let (number, rest) = number(after)?;
            Ok((Some(number), rest))
        }
        None => Ok((None, tokens)),
    }
}

/// ORDER BY ALL, and the number of LIMIT.
fn order<'a, 't>(tokens: &'t [Token<'a>]) -> Result<(Option<u64>, &'t [Token<'a>]), SyntaxError>
    ensures { GivesPhrase (λ x. (x.0, plains x.1.now)) result (query_order_at (plains tokens.now)) }
{
    let rest = keyword(tokens, b"ORDER")?;
    let rest = keyword(rest, b"BY")?;
    let rest = keyword(rest, b"ALL")?;
    limit(rest)
}

/// The clauses behind a table's name.
pub(crate) fn read_clauses<'a, 't>(
    alloc: Global,
    tokens: &'t [Token<'a>],
) -> Result<(Clauses, &'t [Token<'a>]), SyntaxError>
    ensures { GivesPhrase (λ x. ((x.0.cond, (x.0.group, x.0.limit)), plains x.1.now)) result (query_clauses_at (plains tokens.now)) }
{
    let (cond, rest) = where_cond(alloc, tokens)?;
    let (group, rest) = group(alloc, rest)?;
    let (limit, rest) = order(rest)?;
    Ok((Clauses { cond, group, limit }, rest))
}
