//! Single tokens of a sentence.

ghost use Rattle.mt_tokens.specs.Tokens.{plains};
ghost use Rattle.mt_tokens.specs.Splits.{after_if};
ghost use Rattle.mt_phrases.specs.Terminals.{is_text};
ghost use Rattle.mt_phrases.specs.Answers.{GivesPhrase};
ghost use Rattle.mt_element_syntax.specs.Reading.{word_at};

use mt_phrases::SyntaxError;
use mt_tokens::{Token, split_first};
use mt_types::List;
use std::alloc::Global;

/// The plain word at the front, of any length, and what follows it.
pub fn word<'a, 't>(
    alloc: Global,
    tokens: &'t [Token<'a>],
) -> Result<(List<u8>, &'t [Token<'a>]), SyntaxError>
    ensures { GivesPhrase (λ x. (x.0, plains x.1.now)) result (word_at (plains tokens.now)) }
{
    match split_first(tokens) {
        Some((Token::Word(word), rest)) => Ok((List::of_bytes(alloc, word)?, rest)),
        _ => Err(SyntaxError::Bad),
    }
}

/// What follows a text in quotes.
pub fn any_text<'a, 't>(tokens: &'t [Token<'a>]) -> Result<&'t [Token<'a>], SyntaxError>
    ensures { GivesPhrase (λ x. plains x.now) result (after_if is_text (plains tokens.now)) }
{
    match split_first(tokens) {
        Some((Token::Text(_), rest)) => Ok(rest),
        _ => Err(SyntaxError::Bad),
    }
}
