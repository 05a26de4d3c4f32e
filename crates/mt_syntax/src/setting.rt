//! Settings.

ghost use Rattle.mt_tokens.specs.Tokens.{plains};
ghost use Rattle.mt_phrases.specs.Readers.{chain, one};
ghost use Rattle.mt_phrases.specs.Answers.{GivesPhrase};
ghost use Rattle.mt_syntax.specs.Terminals.{value_of};
ghost use Rattle.mt_syntax.specs.Reading.{setting_at};

use crate::tree::{SettingText, SettingValue};
use mt_element_syntax::word;
use mt_phrases::{SyntaxError, sign};
use mt_tokens::{Sign, Token, after_sign, number_of, split_first};
use mt_types::List;
use std::alloc::Global;

/// Settings with commas between them.
pub(crate) fn settings<'a, 't>(
    alloc: Global,
    tokens: &'t [Token<'a>],
) -> Result<(List<SettingText>, &'t [Token<'a>]), SyntaxError>
    ensures { GivesPhrase (λ x. (x.0, plains x.1.now)) result (chain setting_at (plains tokens.now)) }
{
    let (first, mut rest) = setting(alloc, tokens)?;
    let mut settings = List::new(alloc);
    settings.push(first)?;
    for _ in 0..rest.len() {
        let Some(after) = after_sign(rest, Sign::Comma) else {
            break;
        };
        let (next, after) = setting(alloc, after)?;
        settings.push(next)?;
        rest = after;
    }
    Ok((settings, rest))
}

/// A setting.
fn setting<'a, 't>(
    alloc: Global,
    tokens: &'t [Token<'a>],
) -> Result<(SettingText, &'t [Token<'a>]), SyntaxError>
    ensures { GivesPhrase (λ x. (x.0, plains x.1.now)) result (setting_at (plains tokens.now)) }
{
    let (name, rest) = word(alloc, tokens)?;
    let rest = sign(rest, Sign::Equal)?;
    let (value, rest) = value(rest)?;
    Ok((SettingText { name, value }, rest))
}

/// The value of a setting.
fn value<'a, 't>(tokens: &'t [Token<'a>]) -> Result<(SettingValue, &'t [Token<'a>]), SyntaxError>
    ensures { GivesPhrase (λ x. (x.0, plains x.1.now)) result (one value_of (plains tokens.now)) }
{
    match split_first(tokens) {
        Some((Token::Digits(digits), rest)) => match number_of(digits) {
            Some(number) => Ok((SettingValue::Number(number), rest)),
            None => Err(SyntaxError::Bad),
        },
        Some((Token::Text(_), rest)) => Ok((SettingValue::Text, rest)),
        Some((Token::Word(_), rest)) => Ok((SettingValue::Word, rest)),
        _ => Err(SyntaxError::Bad),
    }
}
