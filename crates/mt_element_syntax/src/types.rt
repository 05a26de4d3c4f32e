//! Types as they are written.

ghost use Rattle.mt_tokens.specs.Tokens.{plains};
ghost use Rattle.mt_phrases.specs.Readers.{chain, to_close};
ghost use Rattle.mt_phrases.specs.Answers.{GivesPhrase};
ghost use Rattle.mt_element_syntax.specs.Reading.{arg_at, nested_at, type_at};

use crate::token::word;
use crate::tree::{TypeArg, TypeText};
use mt_phrases::{SyntaxError, begins_with_digits, begins_with_text, number, sign, text};
use mt_tokens::{Sign, Token, after_sign};
use mt_types::List;
use std::alloc::Global;

/// A type, with at most so many parentheses around one another.
#[cycle(types)]
#[tactic(auto, unfolding(crate::specs::Reading::type_at))]
pub(crate) fn type_text<'a, 't>(
    alloc: Global,
    tokens: &'t [Token<'a>],
    depth: u8,
) -> Result<(TypeText, &'t [Token<'a>]), SyntaxError>
    ensures { GivesPhrase (λ x. (x.0, plains x.1.now)) result (type_at depth (plains tokens.now)) }
{
    if depth == 0 {
        let (word, rest) = word(alloc, tokens)?;
        let args = List::new(alloc);
        return Ok((TypeText { word, args }, rest));
    }
    nested_type(alloc, tokens, depth - 1)
}

/// A type, with at most so many parentheses around one another inside its own.
#[cycle(types)]
fn nested_type<'a, 't>(
    alloc: Global,
    tokens: &'t [Token<'a>],
    depth: u8,
) -> Result<(TypeText, &'t [Token<'a>]), SyntaxError>
    ensures { GivesPhrase (λ x. (x.0, plains x.1.now)) result (nested_at (type_at depth) (plains tokens.now)) }
{
    let (word, rest) = word(alloc, tokens)?;
    match after_sign(rest, Sign::Open) {
        None => {
            let args = List::new(alloc);
            Ok((TypeText { word, args }, rest))
        }
        Some(inner) => {
            let (args, rest) = closed_args(alloc, inner, depth)?;
            Ok((TypeText { word, args }, rest))
        }
    }
}

/// Arguments behind an opening parenthesis, up to the closing one.
#[cycle(types)]
fn closed_args<'a, 't>(
    alloc: Global,
    tokens: &'t [Token<'a>],
    depth: u8,
) -> Result<(List<TypeArg>, &'t [Token<'a>]), SyntaxError>
    ensures { GivesPhrase (λ x. (x.0, plains x.1.now)) result (to_close (chain (arg_at (type_at depth))) (plains tokens.now)) }
{
    let (args, rest) = args(alloc, tokens, depth)?;
    let rest = sign(rest, Sign::Close)?;
    Ok((args, rest))
}

/// Arguments with commas between them.
#[cycle(types)]
fn args<'a, 't>(
    alloc: Global,
    tokens: &'t [Token<'a>],
    depth: u8,
) -> Result<(List<TypeArg>, &'t [Token<'a>]), SyntaxError>
    ensures { GivesPhrase (λ x. (x.0, plains x.1.now)) result (chain (arg_at (type_at depth)) (plains tokens.now)) }
{
    let (first, mut rest) = arg(alloc, tokens, depth)?;
    let mut args = List::new(alloc);
    args.push(first)?;
    for _ in 0..rest.len() {
        let Some(after) = after_sign(rest, Sign::Comma) else {
            break;
        };
        let (next, after) = arg(alloc, after, depth)?;
        args.push(next)?;
        rest = after;
    }
    Ok((args, rest))
}

/// An argument: a number, a text or a type.
#[cycle(types)]
fn arg<'a, 't>(
    alloc: Global,
    tokens: &'t [Token<'a>],
    depth: u8,
) -> Result<(TypeArg, &'t [Token<'a>]), SyntaxError>
    ensures { GivesPhrase (λ x. (x.0, plains x.1.now)) result (arg_at (type_at depth) (plains tokens.now)) }
{
    if begins_with_digits(tokens) {
        let (number, rest) = number(tokens)?;
        return Ok((TypeArg::Number(number), rest));
    }
    if begins_with_text(tokens) {
        let (text, rest) = text(alloc, tokens)?;
        return Ok((TypeArg::Text(text), rest));
    }
    let (ty, rest) = type_text(alloc, tokens, depth)?;
    Ok((TypeArg::Type(ty), rest))
}
