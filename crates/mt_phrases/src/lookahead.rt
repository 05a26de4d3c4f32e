//! What tokens begin with.

ghost use Rattle.std.specs.Prelude.{◌≡◌};
ghost use Rattle.mt_tokens.specs.Tokens.{plains};
ghost use Rattle.mt_tokens.specs.Words.{is_keyword, is_word, is_sign};
ghost use Rattle.mt_phrases.specs.Phrases.{first_is, second_is};
ghost use Rattle.mt_phrases.specs.Terminals.{is_number, is_text};

use mt_tokens::{Sign, Token, is_keyword, is_sign, is_word, split_first};

/// Whether the first token is this keyword.
pub fn begins_with_keyword(tokens: &[Token<'_>], key: &[u8]) -> bool
    ensures { result ≡ first_is (is_keyword key.now) (plains tokens.now) }
{
    match split_first(tokens) {
        Some((first, _)) => is_keyword(first, key),
        None => false,
    }
}

/// Whether the first token is this word, as it is written.
pub fn begins_with_word(tokens: &[Token<'_>], fixed: &[u8]) -> bool
    ensures { result ≡ first_is (is_word fixed.now) (plains tokens.now) }
{
    match split_first(tokens) {
        Some((first, _)) => is_word(first, fixed),
        None => false,
    }
}

/// Whether the first token is this sign.
pub fn begins_with_sign(tokens: &[Token<'_>], sign: Sign) -> bool
    ensures { result ≡ first_is (is_sign sign) (plains tokens.now) }
{
    match split_first(tokens) {
        Some((first, _)) => is_sign(first, sign),
        None => false,
    }
}

/// Whether the first token is digits.
pub fn begins_with_digits(tokens: &[Token<'_>]) -> bool
    ensures { result ≡ first_is is_number (plains tokens.now) }
{
    match split_first(tokens) {
        Some((Token::Digits(_), _)) => true,
        _ => false,
    }
}

/// Whether the first token is a text in quotes.
pub fn begins_with_text(tokens: &[Token<'_>]) -> bool
    ensures { result ≡ first_is is_text (plains tokens.now) }
{
    match split_first(tokens) {
        Some((Token::Text(_), _)) => true,
        _ => false,
    }
}

/// Whether the second token is this keyword.
pub fn second_is_keyword(tokens: &[Token<'_>], key: &[u8]) -> bool
    ensures { result ≡ second_is (is_keyword key.now) (plains tokens.now) }
{
    match split_first(tokens) {
        Some((_, rest)) => begins_with_keyword(rest, key),
        None => false,
    }
}

/// Whether the second token is this sign.
pub fn second_is_sign(tokens: &[Token<'_>], sign: Sign) -> bool
    ensures { result ≡ second_is (is_sign sign) (plains tokens.now) }
{
    match split_first(tokens) {
        Some((_, rest)) => begins_with_sign(rest, sign),
        None => false,
    }
}
