//! What a token is in a sentence: a keyword, a fixed word, a sign or a name.

ghost use Rattle.std.specs.Prelude.{◌≡◌};
ghost use Rattle.std.specs.Option.{option_copied};
ghost use Rattle.mt_tokens.specs.Tokens.{as_read};
ghost use Rattle.mt_tokens.specs.Words.{is_keyword, is_sign, is_word, name_of};

use crate::sign::Sign;
use crate::token::Token;
use mt_types::MAX_NAME;

/// Whether the token is this keyword: a plain word, in any case.
pub fn is_keyword(token: Token<'_>, key: &[u8]) -> bool
    ensures { result ≡ is_keyword key.now (as_read token.entry) }
{
    match token {
        Token::Word(word) => word.eq_ignore_ascii_case(key),
        _ => false,
    }
}

/// Whether the token is this word, as it is written, and plain.
pub fn is_word(token: Token<'_>, fixed: &[u8]) -> bool
    ensures { result ≡ is_word fixed.now (as_read token.entry) }
{
    match token {
        Token::Word(word) => word == fixed,
        _ => false,
    }
}

/// Whether the token is this sign.
pub fn is_sign(token: Token<'_>, sign: Sign) -> bool
    ensures { result ≡ is_sign sign (as_read token.entry) }
{
    match token {
        Token::Sign(found) => found == sign,
        _ => false,
    }
}

/// The name that the token is: a word of at most `MAX_NAME` bytes, or what stands in backquotes.
pub fn name_of<'a>(token: Token<'a>) -> Option<&'a [u8]>
    ensures { option_copied result ≡ name_of (as_read token.entry) }
{
    match token {
        Token::Word(word) if word.len() <= MAX_NAME => Some(word),
        Token::Quoted(name) => Some(name),
        _ => None,
    }
}
