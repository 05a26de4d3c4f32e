//! Single tokens of a sentence.

ghost use Rattle.std.specs.Prelude.{[]};
ghost use Rattle.mt_tokens.specs.declared.sign.Sign.TheVariants.{Semicolon};
ghost use Rattle.mt_tokens.specs.Tokens.{plains};
ghost use Rattle.mt_tokens.specs.Splits.{after_if};
ghost use Rattle.mt_tokens.specs.Words.{is_keyword, is_word, is_sign};
ghost use Rattle.mt_phrases.specs.Answers.{GivesPhrase};
ghost use Rattle.mt_phrases.specs.Readers.{number_at, skip, text_token_at};

use crate::error::SyntaxError;
use mt_tokens::{
    Sign, Token, after_keyword, after_sign, after_word, number_of, split_first, unescaped,
};
use mt_types::List;
use std::alloc::Global;

/// The number below 2^64 at the front, and what follows it.
pub fn number<'a, 't>(tokens: &'t [Token<'a>]) -> Result<(u64, &'t [Token<'a>]), SyntaxError>
    ensures { GivesPhrase (λ x. (x.0, plains x.1.now)) result (number_at (plains tokens.now)) }
{
    match split_first(tokens) {
        Some((Token::Digits(digits), rest)) => match number_of(digits) {
            Some(number) => Ok((number, rest)),
            None => Err(SyntaxError::Bad),
        },
        _ => Err(SyntaxError::Bad),
    }
}

/// The text in quotes at the front, its escapes undone, and what follows it.
pub fn text<'a, 't>(
    alloc: Global,
    tokens: &'t [Token<'a>],
) -> Result<(List<u8>, &'t [Token<'a>]), SyntaxError>
    ensures { GivesPhrase (λ x. (x.0, plains x.1.now)) result (text_token_at (plains tokens.now)) }
{
    match split_first(tokens) {
        Some((Token::Text(text), rest)) => Ok((unescaped(alloc, text)?, rest)),
        _ => Err(SyntaxError::Bad),
    }
}

/// What follows the keyword.
pub fn keyword<'a, 't>(tokens: &'t [Token<'a>], key: &[u8]) -> Result<&'t [Token<'a>], SyntaxError>
    ensures { GivesPhrase (λ x. plains x.now) result (after_if (is_keyword key.now) (plains tokens.now)) }
{
    match after_keyword(tokens, key) {
        Some(rest) => Ok(rest),
        None => Err(SyntaxError::Bad),
    }
}

/// What follows the word, as it is written.
pub fn fixed_word<'a, 't>(
    tokens: &'t [Token<'a>],
    fixed: &[u8],
) -> Result<&'t [Token<'a>], SyntaxError>
    ensures { GivesPhrase (λ x. plains x.now) result (after_if (is_word fixed.now) (plains tokens.now)) }
{
    match after_word(tokens, fixed) {
        Some(rest) => Ok(rest),
        None => Err(SyntaxError::Bad),
    }
}

/// What follows the sign.
pub fn sign<'a, 't>(tokens: &'t [Token<'a>], sign: Sign) -> Result<&'t [Token<'a>], SyntaxError>
    ensures { GivesPhrase (λ x. plains x.now) result (after_if (is_sign sign) (plains tokens.now)) }
{
    match after_sign(tokens, sign) {
        Some(rest) => Ok(rest),
        None => Err(SyntaxError::Bad),
    }
}

/// What follows `;`, where it is given.
pub fn skip_semicolon<'a, 't>(tokens: &'t [Token<'a>]) -> Result<&'t [Token<'a>], SyntaxError>
    ensures { GivesPhrase (λ x. plains x.now) result (skip (is_sign Semicolon) [] (plains tokens.now)) }
{
    match after_sign(tokens, Sign::Semicolon) {
        Some(after) => Ok(after),
        None => Ok(tokens),
    }
}
