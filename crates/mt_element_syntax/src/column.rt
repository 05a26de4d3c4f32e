//! Columns.

ghost use Rattle.std.specs.Prelude.{[], ◌∷◌, codes};
ghost use Rattle.mt_tokens.specs.Tokens.{plains};
ghost use Rattle.mt_tokens.specs.Words.{is_keyword};
ghost use Rattle.mt_phrases.specs.Terminals.{is_text};
ghost use Rattle.mt_phrases.specs.Readers.{chain, in_parens, skip};
ghost use Rattle.mt_phrases.specs.Answers.{GivesPhrase};
ghost use Rattle.mt_element_syntax.specs.Reading.{codec_at, codecs_at, column_element_at};

use crate::limits::MAX_TYPE_DEPTH;
use crate::token::{any_text, word};
use crate::tree::{CodecText, Element};
use crate::types::type_text;
use mt_phrases::{NameRule, SyntaxError, name, number, sign};
use mt_tokens::{Sign, Token, after_keyword, after_sign};
use mt_types::List;
use std::alloc::Global;

/// A column.
#[tactic(auto, unfolding(crate::specs::Reading::column_element_at))]
pub(crate) fn column<'a, 't>(
    alloc: Global,
    tokens: &'t [Token<'a>],
) -> Result<(Element, &'t [Token<'a>]), SyntaxError>
    ensures { GivesPhrase (λ x. (x.0, plains x.1.now)) result (column_element_at (plains tokens.now)) }
{
    let (name, rest) = name(NameRule::Any, alloc, tokens)?;
    let (ty, rest) = type_text(alloc, rest, MAX_TYPE_DEPTH)?;
    let rest = skip_comment(rest)?;
    let (codecs, rest) = codecs(alloc, rest)?;
    Ok((Element::Column { name, ty, codecs }, rest))
}

/// What follows `COMMENT text`, where it is given.
pub fn skip_comment<'a, 't>(tokens: &'t [Token<'a>]) -> Result<&'t [Token<'a>], SyntaxError>
    ensures { GivesPhrase (λ x. plains x.now) result
        (skip (is_keyword (codes "COMMENT")) (is_text ∷ []) (plains tokens.now)) }
{
    match after_keyword(tokens, b"COMMENT") {
        Some(after) => any_text(after),
        None => Ok(tokens),
    }
}

/// The codecs of CODEC, where it is given.
fn codecs<'a, 't>(
    alloc: Global,
    tokens: &'t [Token<'a>],
) -> Result<(Option<List<CodecText>>, &'t [Token<'a>]), SyntaxError>
    ensures { GivesPhrase (λ x. (x.0, plains x.1.now)) result (codecs_at (plains tokens.now)) }
{
    match after_keyword(tokens, b"CODEC") {
        Some(after) => {
            let (codecs, rest) = codec_list(alloc, after)?;
            Ok((Some(codecs), rest))
        }
        None => Ok((None, tokens)),
    }
}

/// Codecs in parentheses.
fn codec_list<'a, 't>(
    alloc: Global,
    tokens: &'t [Token<'a>],
) -> Result<(List<CodecText>, &'t [Token<'a>]), SyntaxError>
    ensures { GivesPhrase (λ x. (x.0, plains x.1.now)) result (in_parens (chain codec_at) (plains tokens.now)) }
{
    let rest = sign(tokens, Sign::Open)?;
    let (codecs, rest) = codec_items(alloc, rest)?;
    let rest = sign(rest, Sign::Close)?;
    Ok((codecs, rest))
}

/// Codecs with commas between them.
fn codec_items<'a, 't>(
    alloc: Global,
    tokens: &'t [Token<'a>],
) -> Result<(List<CodecText>, &'t [Token<'a>]), SyntaxError>
    ensures { GivesPhrase (λ x. (x.0, plains x.1.now)) result (chain codec_at (plains tokens.now)) }
{
    let (first, mut rest) = codec(alloc, tokens)?;
    let mut codecs = List::new(alloc);
    codecs.push(first)?;
    for _ in 0..rest.len() {
        let Some(after) = after_sign(rest, Sign::Comma) else {
            break;
        };
        let (next, after) = codec(alloc, after)?;
        codecs.push(next)?;
        rest = after;
    }
    Ok((codecs, rest))
}

/// A codec.
fn codec<'a, 't>(
    alloc: Global,
    tokens: &'t [Token<'a>],
) -> Result<(CodecText, &'t [Token<'a>]), SyntaxError>
    ensures { GivesPhrase (λ x. (x.0, plains x.1.now)) result (codec_at (plains tokens.now)) }
{
    let (word, rest) = word(alloc, tokens)?;
    match after_sign(rest, Sign::Open) {
        Some(inner) => {
            let (_, rest) = number(inner)?;
            let rest = sign(rest, Sign::Close)?;
            let has_number = true;
            Ok((CodecText { word, has_number }, rest))
        }
        None => {
            let has_number = false;
            Ok((CodecText { word, has_number }, rest))
        }
    }
}
