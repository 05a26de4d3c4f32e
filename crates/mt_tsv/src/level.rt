//! The texts of an array's elements.

ghost use Rattle.std.specs.Prelude.{◌≡◌, ◌∷◌, ◌<◌, Ok, Some, length, IfSome, MatchResult};
ghost use Rattle.std.specs.Option.{option_copied};
ghost use Rattle.std.specs.List.{list_all};
ghost use Rattle.mt_tsv.specs.Results.{FieldFails};
ghost use Rattle.mt_tsv.specs.Arrays.{elements_after, middle, is_bracketed, is_text_element};
ghost use Rattle.mt_tsv.specs.Arrays.{have_quotes, level_of};

use crate::ascii::{CLOSE, OPEN};
use crate::fault::{FieldError, RowWhy};
use crate::nesting::{element_end, is_matched};
use crate::quote::is_text_element;
use crate::space::{trimmed, unless_blank};

/// The first element, and what follows its comma, if there is one.
pub fn cut_element(content: &[u8]) -> (&[u8], Option<&[u8]>)
    ensures elements { elements_after (Some content.now)
        ≡ result.0.now ∷ elements_after (option_copied result.1) }
    ensures shorter { IfSome result.1 (λ rest. length rest.now < length content.now) }
{
    match element_end(content) {
        None => (trimmed(content), None),
        Some(i) => (trimmed(&content[..i]), Some(&content[i + 1..])),
    }
}

/// What stands between the first and the last byte.
pub fn middle(text: &[u8]) -> &[u8]
    ensures { result.now ≡ middle text.now }
{
    if text.len() < 2 {
        &text[..0]
    } else {
        &text[1..text.len() - 1]
    }
}

fn is_bracketed(text: &[u8]) -> bool
    ensures { result ≡ is_bracketed text.now }
{
    if text.len() < 2 {
        return false;
    }
    if text[0] != OPEN {
        return false;
    }
    text[text.len() - 1] == CLOSE
}

fn are_text_elements(content: Option<&[u8]>) -> bool
    ensures { result ≡ list_all is_text_element (elements_after (option_copied content.entry)) }
{
    let mut rest = content;
    'elements: while let Some(texts) = rest {
        let (text, after) = cut_element(texts);
        if !is_text_element(text) {
            return false;
        }
        rest = after;
    }
    true
}

fn have_quotes(in_quotes: bool, content: Option<&[u8]>) -> bool
    ensures { result ≡ have_quotes in_quotes (elements_after (option_copied content.entry)) }
{
    if in_quotes {
        are_text_elements(content)
    } else {
        true
    }
}

/// What stands between an array's brackets, unless it is only spaces, if its brackets and quotes are
/// in form.
#[tactic(auto, unfolding(crate::specs::Arrays::level_of))]
pub fn read_level(in_quotes: bool, text: &[u8]) -> Result<Option<&[u8]>, FieldError>
    ensures { MatchResult result
        (λ rest. level_of in_quotes text.now ≡ Ok (elements_after (option_copied rest)))
        (λ e. FieldFails e (level_of in_quotes text.now)) }
{
    if !is_bracketed(text) {
        return Err(FieldError::Bad(RowWhy::List));
    }
    let content = middle(text);
    if !is_matched(content) {
        return Err(FieldError::Bad(RowWhy::List));
    }
    let elements = unless_blank(content);
    if !have_quotes(in_quotes, elements) {
        return Err(FieldError::Bad(RowWhy::List));
    }
    Ok(elements)
}
