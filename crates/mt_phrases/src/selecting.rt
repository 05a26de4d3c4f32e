//! What is selected, read: `*`, or items.

ghost use Rattle.mt_tokens.specs.Tokens.{plains};
ghost use Rattle.mt_phrases.specs.Answers.{GivesPhrase};
ghost use Rattle.mt_phrases.specs.NameRules.{name_by};
ghost use Rattle.mt_phrases.specs.Readers.{chain};
ghost use Rattle.mt_phrases.specs.Selections.{aggregate_at, item_at, selects_at};

use crate::error::SyntaxError;
use crate::lookahead::{begins_with_keyword, begins_with_sign, second_is_sign};
use crate::naming::{NameRule, name};
use crate::selection::{Selected, Selection, agg, count};
use crate::token::sign;
use mt_tokens::{Sign, Token, after_sign};
use mt_types::List;
use std::alloc::Global;

/// `sum`, `min` or `max` of a column.
fn aggregate<'a, 't>(
    rule: NameRule,
    alloc: Global,
    tokens: &'t [Token<'a>],
) -> Result<(Selection, &'t [Token<'a>]), SyntaxError>
    ensures { GivesPhrase (λ x. (x.0, plains x.1.now)) result (aggregate_at (name_by rule) (plains tokens.now)) }
{
    let (agg, rest) = agg(tokens)?;
    let rest = sign(rest, Sign::Open)?;
    let (name, rest) = name(rule, alloc, rest)?;
    let rest = sign(rest, Sign::Close)?;
    Ok((Selection::Of(agg, name), rest))
}

/// An item.
#[tactic(auto, unfolding(crate::specs::Selections::item_at))]
fn item<'a, 't>(
    rule: NameRule,
    alloc: Global,
    tokens: &'t [Token<'a>],
) -> Result<(Selection, &'t [Token<'a>]), SyntaxError>
    ensures { GivesPhrase (λ x. (x.0, plains x.1.now)) result (item_at (name_by rule) (plains tokens.now)) }
{
    if second_is_sign(tokens, Sign::Open) {
        if begins_with_keyword(tokens, b"count") {
            return count(tokens);
        }
        return aggregate(rule, alloc, tokens);
    }
    let (name, rest) = name(rule, alloc, tokens)?;
    Ok((Selection::Column(name), rest))
}

/// Items with commas between them.
fn items<'a, 't>(
    rule: NameRule,
    alloc: Global,
    tokens: &'t [Token<'a>],
) -> Result<(List<Selection>, &'t [Token<'a>]), SyntaxError>
    ensures { GivesPhrase (λ x. (x.0, plains x.1.now)) result (chain (item_at (name_by rule)) (plains tokens.now)) }
{
    let (first, mut rest) = item(rule, alloc, tokens)?;
    let mut items = List::new(alloc);
    items.push(first)?;
    for _ in 0..rest.len() {
        let Some(after) = after_sign(rest, Sign::Comma) else {
            break;
        };
        let (next, after) = item(rule, alloc, after)?;
        items.push(next)?;
        rest = after;
    }
    Ok((items, rest))
}

/// `*`, or items.
pub fn selects<'a, 't>(
    rule: NameRule,
    alloc: Global,
    tokens: &'t [Token<'a>],
) -> Result<(Selected, &'t [Token<'a>]), SyntaxError>
    ensures { GivesPhrase (λ x. (x.0, plains x.1.now)) result (selects_at (name_by rule) (plains tokens.now)) }
{
    if begins_with_sign(tokens, Sign::Star) {
        let rest = sign(tokens, Sign::Star)?;
        return Ok((Selected::All, rest));
    }
    let (items, rest) = items(rule, alloc, tokens)?;
    Ok((Selected::Items(items), rest))
}
