//! Conditions.

ghost use Rattle.std.specs.Prelude.{◌≡◌, IfOk};
ghost use Rattle.mt_tokens.specs.Tokens.{plains};
ghost use Rattle.mt_phrases.specs.Answers.{GivesPhrase};
ghost use Rattle.mt_phrases.specs.Readers.{to_close};
ghost use Rattle.mt_cond_syntax.specs.declared.tree.CondText.TheVariants.{And, Not, Or};
ghost use Rattle.mt_cond_syntax.specs.Reading.{cond_at, conjunction_at, disjunction_at, nested_unit_at, unit_at};

use crate::atom::atom;
use crate::limits::MAX_COND_DEPTH;
use crate::tree::CondText;
use mt_phrases::{SyntaxError, sign};
use mt_tokens::{Sign, Token, after_keyword, after_sign};
use mt_types::{Boxed, NoMemory};
use std::alloc::Global;

/// NOT of a condition.
fn negated(alloc: Global, cond: CondText) -> Result<CondText, NoMemory>
    ensures { IfOk result (λ made. made ≡ Not cond) }
{
    Ok(CondText::Not(Boxed::new(alloc, cond)?))
}

/// AND of two conditions.
fn all_of(alloc: Global, left: CondText, right: CondText) -> Result<CondText, NoMemory>
    ensures { IfOk result (λ made. made ≡ And left right) }
{
    let left = Boxed::new(alloc, left)?;
    let right = Boxed::new(alloc, right)?;
    Ok(CondText::And(left, right))
}

/// OR of two conditions.
fn any_of(alloc: Global, left: CondText, right: CondText) -> Result<CondText, NoMemory>
    ensures { IfOk result (λ made. made ≡ Or left right) }
{
    let left = Boxed::new(alloc, left)?;
    let right = Boxed::new(alloc, right)?;
    Ok(CondText::Or(left, right))
}

/// A condition without AND and OR, with at most so many NOTs and parentheses around one another.
#[cycle(conditions)]
#[tactic(auto, unfolding(crate::specs::Reading::unit_at))]
fn unit<'a, 't>(
    alloc: Global,
    tokens: &'t [Token<'a>],
    depth: u8,
) -> Result<(CondText, &'t [Token<'a>]), SyntaxError>
    ensures { GivesPhrase (λ x. (x.0, plains x.1.now)) result (unit_at depth (plains tokens.now)) }
{
    if depth == 0 {
        return atom(alloc, tokens);
    }
    nested_unit(alloc, tokens, depth - 1)
}

/// The same, with at most so many around one another inside its own.
#[cycle(conditions)]
fn nested_unit<'a, 't>(
    alloc: Global,
    tokens: &'t [Token<'a>],
    depth: u8,
) -> Result<(CondText, &'t [Token<'a>]), SyntaxError>
    ensures { GivesPhrase (λ x. (x.0, plains x.1.now)) result (nested_unit_at (unit_at depth) (plains tokens.now)) }
{
    if let Some(after) = after_keyword(tokens, b"NOT") {
        let (inner, rest) = unit(alloc, after, depth)?;
        return Ok((negated(alloc, inner)?, rest));
    }
    match after_sign(tokens, Sign::Open) {
        Some(inner) => closed(alloc, inner, depth),
        None => atom(alloc, tokens),
    }
}

/// A condition behind an opening parenthesis, up to the closing one.
#[cycle(conditions)]
fn closed<'a, 't>(
    alloc: Global,
    tokens: &'t [Token<'a>],
    depth: u8,
) -> Result<(CondText, &'t [Token<'a>]), SyntaxError>
    ensures { GivesPhrase (λ x. (x.0, plains x.1.now)) result (to_close (disjunction_at (unit_at depth)) (plains tokens.now)) }
{
    let (inner, rest) = disjunction(alloc, tokens, depth)?;
    let rest = sign(rest, Sign::Close)?;
    Ok((inner, rest))
}

/// Units with AND between them, grouped to the left.
#[cycle(conditions)]
fn conjunction<'a, 't>(
    alloc: Global,
    tokens: &'t [Token<'a>],
    depth: u8,
) -> Result<(CondText, &'t [Token<'a>]), SyntaxError>
    ensures { GivesPhrase (λ x. (x.0, plains x.1.now)) result (conjunction_at (unit_at depth) (plains tokens.now)) }
{
    let (mut left, mut rest) = unit(alloc, tokens, depth)?;
    for _ in 0..rest.len() {
        let Some(after) = after_keyword(rest, b"AND") else {
            break;
        };
        let (right, after) = unit(alloc, after, depth)?;
        left = all_of(alloc, left, right)?;
        rest = after;
    }
    Ok((left, rest))
}

/// Conjunctions with OR between them, grouped to the left.
#[cycle(conditions)]
fn disjunction<'a, 't>(
    alloc: Global,
    tokens: &'t [Token<'a>],
    depth: u8,
) -> Result<(CondText, &'t [Token<'a>]), SyntaxError>
    ensures { GivesPhrase (λ x. (x.0, plains x.1.now)) result (disjunction_at (unit_at depth) (plains tokens.now)) }
{
    let (mut left, mut rest) = conjunction(alloc, tokens, depth)?;
    for _ in 0..rest.len() {
        let Some(after) = after_keyword(rest, b"OR") else {
            break;
        };
        let (right, after) = conjunction(alloc, after, depth)?;
        left = any_of(alloc, left, right)?;
        rest = after;
    }
    Ok((left, rest))
}

/// A condition, with at most `MAX_COND_DEPTH` NOTs and parentheses around one another.
pub fn cond<'a, 't>(
    alloc: Global,
    tokens: &'t [Token<'a>],
) -> Result<(CondText, &'t [Token<'a>]), SyntaxError>
    ensures { GivesPhrase (λ x. (x.0, plains x.1.now)) result (cond_at (plains tokens.now)) }
{
    disjunction(alloc, tokens, MAX_COND_DEPTH)
}
