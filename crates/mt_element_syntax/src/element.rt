//! What stands between the parentheses of a table.

ghost use Rattle.mt_tokens.specs.Tokens.{plains};
ghost use Rattle.mt_phrases.specs.Readers.{chain};
ghost use Rattle.mt_phrases.specs.Answers.{GivesPhrase};
ghost use Rattle.mt_element_syntax.specs.Reading.{element_at, element_list_at};

use crate::column::column;
use crate::index::index;
use crate::projection::projection;
use crate::tree::Element;
use mt_phrases::{SyntaxError, sign};
use mt_tokens::{Sign, Token, after_keyword, after_sign};
use mt_types::List;
use std::alloc::Global;

/// Elements in parentheses.
pub fn elements<'a, 't>(
    alloc: Global,
    tokens: &'t [Token<'a>],
) -> Result<(List<Element>, &'t [Token<'a>]), SyntaxError>
    ensures { GivesPhrase (λ x. (x.0, plains x.1.now)) result (element_list_at (plains tokens.now)) }
{
    let rest = sign(tokens, Sign::Open)?;
    let (elements, rest) = element_list(alloc, rest)?;
    let rest = sign(rest, Sign::Close)?;
    Ok((elements, rest))
}

/// Elements with commas between them.
fn element_list<'a, 't>(
    alloc: Global,
    tokens: &'t [Token<'a>],
) -> Result<(List<Element>, &'t [Token<'a>]), SyntaxError>
    ensures { GivesPhrase (λ x. (x.0, plains x.1.now)) result (chain element_at (plains tokens.now)) }
{
    let (first, mut rest) = element(alloc, tokens)?;
    let mut elements = List::new(alloc);
    elements.push(first)?;
    for _ in 0..rest.len() {
        let Some(after) = after_sign(rest, Sign::Comma) else {
            break;
        };
        let (next, after) = element(alloc, after)?;
        elements.push(next)?;
        rest = after;
    }
    Ok((elements, rest))
}

/// An index, a projection or a column.
#[tactic(auto, unfolding(crate::specs::Reading::element_at))]
fn element<'a, 't>(
    alloc: Global,
    tokens: &'t [Token<'a>],
) -> Result<(Element, &'t [Token<'a>]), SyntaxError>
    ensures { GivesPhrase (λ x. (x.0, plains x.1.now)) result (element_at (plains tokens.now)) }
{
    if let Some(after) = after_keyword(tokens, b"INDEX") {
        return index(alloc, after);
    }
    if let Some(after) = after_keyword(tokens, b"PROJECTION") {
        return projection(alloc, after);
    }
    column(alloc, tokens)
}
