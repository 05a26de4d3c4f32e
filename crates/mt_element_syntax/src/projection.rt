//! Projections.

ghost use Rattle.mt_tokens.specs.Tokens.{plains};
ghost use Rattle.mt_phrases.specs.Answers.{GivesPhrase};
ghost use Rattle.mt_element_syntax.specs.Reading.{group_at, order_at, projection_element_at, selection_at};

use crate::names::list;
use crate::tree::Element;
use mt_phrases::{NameRule, Selected, SyntaxError, keyword, name, selects, sign};
use mt_tokens::{Sign, Token, after_keyword};
use mt_types::List;
use std::alloc::Global;

/// What stands in the parentheses of a projection.
#[derive(Drop)]
struct SelectText {
    /// What it selects.
    items: Selected,
    /// The names of GROUP BY.
    group: Option<List<List<u8>>>,
    /// The names of ORDER BY.
    order: Option<List<List<u8>>>,
}

/// A projection, behind PROJECTION.
#[tactic(auto, unfolding(crate::specs::Reading::projection_element_at))]
pub(crate) fn projection<'a, 't>(
    alloc: Global,
    tokens: &'t [Token<'a>],
) -> Result<(Element, &'t [Token<'a>]), SyntaxError>
    ensures { GivesPhrase (λ x. (x.0, plains x.1.now)) result (projection_element_at (plains tokens.now)) }
{
    let (name, rest) = name(NameRule::Any, alloc, tokens)?;
    let rest = sign(rest, Sign::Open)?;
    let (selecting, rest) = selecting(alloc, rest)?;
    let rest = sign(rest, Sign::Close)?;
    let SelectText {
        items,
        group,
        order,
    } = selecting;
    Ok((
        Element::Projection {
            name,
            items,
            group,
            order,
        },
        rest,
    ))
}

/// `SELECT` and what follows it.
fn selecting<'a, 't>(
    alloc: Global,
    tokens: &'t [Token<'a>],
) -> Result<(SelectText, &'t [Token<'a>]), SyntaxError>
    ensures { GivesPhrase (λ x. ((x.0.items, (x.0.group, x.0.order)), plains x.1.now)) result (selection_at (plains tokens.now)) }
{
    let rest = keyword(tokens, b"SELECT")?;
    let (items, rest) = selects(NameRule::Any, alloc, rest)?;
    let (group, rest) = group(alloc, rest)?;
    let (order, rest) = order(alloc, rest)?;
    Ok((
        SelectText {
            items,
            group,
            order,
        },
        rest,
    ))
}

/// The names of GROUP BY, where it is given.
fn group<'a, 't>(
    alloc: Global,
    tokens: &'t [Token<'a>],
) -> Result<(Option<List<List<u8>>>, &'t [Token<'a>]), SyntaxError>
    ensures { GivesPhrase (λ x. (x.0, plains x.1.now)) result (group_at (plains tokens.now)) }
{
    match after_keyword(tokens, b"GROUP") {
        Some(after) => {
            let rest = keyword(after, b"BY")?;
            let (names, rest) = list(alloc, rest)?;
            Ok((Some(names), rest))
        }
        None => Ok((None, tokens)),
    }
}

/// The names of ORDER BY, where it is given.
fn order<'a, 't>(
    alloc: Global,
    tokens: &'t [Token<'a>],
) -> Result<(Option<List<List<u8>>>, &'t [Token<'a>]), SyntaxError>
    ensures { GivesPhrase (λ x. (x.0, plains x.1.now)) result (order_at (plains tokens.now)) }
{
    match after_keyword(tokens, b"ORDER") {
        Some(after) => {
            let rest = keyword(after, b"BY")?;
            let (names, rest) = list(alloc, rest)?;
            Ok((Some(names), rest))
        }
        None => Ok((None, tokens)),
    }
}
