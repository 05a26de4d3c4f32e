//! Partition keys.

ghost use Rattle.mt_tokens.specs.Tokens.{plains};
ghost use Rattle.mt_phrases.specs.Readers.{chain};
ghost use Rattle.mt_phrases.specs.Answers.{GivesPhrase};
ghost use Rattle.mt_syntax.specs.Reading.{expression_at, expressions_at};

use crate::tree::PartitionText;
use mt_phrases::{NameRule, SyntaxError, fixed_word, name, second_is_sign, sign, singleton};
use mt_tokens::{Sign, Token, after_sign};
use mt_types::List;
use std::alloc::Global;

/// Expressions in parentheses, or one expression.
pub(crate) fn expressions<'a, 't>(
    alloc: Global,
    tokens: &'t [Token<'a>],
) -> Result<(List<PartitionText>, &'t [Token<'a>]), SyntaxError>
    ensures { GivesPhrase (λ x. (x.0, plains x.1.now)) result (expressions_at (plains tokens.now)) }
{
    match after_sign(tokens, Sign::Open) {
        Some(inner) => {
            let (expressions, rest) = expression_list(alloc, inner)?;
            let rest = sign(rest, Sign::Close)?;
            Ok((expressions, rest))
        }
        None => {
            let (only, rest) = expression(alloc, tokens)?;
            Ok((singleton(alloc, only)?, rest))
        }
    }
}

/// Expressions with commas between them.
fn expression_list<'a, 't>(
    alloc: Global,
    tokens: &'t [Token<'a>],
) -> Result<(List<PartitionText>, &'t [Token<'a>]), SyntaxError>
    ensures { GivesPhrase (λ x. (x.0, plains x.1.now)) result (chain expression_at (plains tokens.now)) }
{
    let (first, mut rest) = expression(alloc, tokens)?;
    let mut expressions = List::new(alloc);
    expressions.push(first)?;
    for _ in 0..rest.len() {
        let Some(after) = after_sign(rest, Sign::Comma) else {
            break;
        };
        let (next, after) = expression(alloc, after)?;
        expressions.push(next)?;
        rest = after;
    }
    Ok((expressions, rest))
}

/// An expression.
#[tactic(auto, unfolding(crate::specs::Reading::expression_at))]
fn expression<'a, 't>(
    alloc: Global,
    tokens: &'t [Token<'a>],
) -> Result<(PartitionText, &'t [Token<'a>]), SyntaxError>
    ensures { GivesPhrase (λ x. (x.0, plains x.1.now)) result (expression_at (plains tokens.now)) }
{
    if second_is_sign(tokens, Sign::Open) {
        let rest = fixed_word(tokens, b"toYYYYMM")?;
        let rest = sign(rest, Sign::Open)?;
        let (name, rest) = name(NameRule::Any, alloc, rest)?;
        let rest = sign(rest, Sign::Close)?;
        return Ok((PartitionText::Month(name), rest));
    }
    let (name, rest) = name(NameRule::Any, alloc, tokens)?;
    Ok((PartitionText::Plain(name), rest))
}
