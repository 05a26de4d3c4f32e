//! Tokens taken off the front, one at a time: what readers of a grammar are made of.

ghost use Rattle.std.specs.Prelude.{◌≡◌, ◌∷◌, [], MatchOption, option_map};
ghost use Rattle.mt_tokens.specs.Tokens.{as_read, plains};
ghost use Rattle.mt_tokens.specs.Splits.{after_keyword, after_sign, after_word, split_name, split_number};

use crate::digits::number_of;
use crate::keyword::{is_keyword, is_sign, is_word, name_of};
use crate::sign::Sign;
use crate::token::Token;

/// The first token and the others.
pub fn split_first<'a, 't>(tokens: &'t [Token<'a>]) -> Option<(Token<'a>, &'t [Token<'a>])>
    ensures { MatchOption result (plains tokens.now ≡ [])
        (λ p. plains tokens.now ≡ as_read p.0 ∷ plains p.1.now) }
{
    let (first, rest) = tokens.split_first()?;
    Some((*first, rest))
}

/// What follows the keyword, if the tokens begin with it.
pub fn after_keyword<'a, 't>(tokens: &'t [Token<'a>], key: &[u8]) -> Option<&'t [Token<'a>]>
    ensures { option_map (λ rest. plains rest.now) result
        ≡ after_keyword key.now (plains tokens.now) }
{
    let (first, rest) = split_first(tokens)?;
    if is_keyword(first, key) {
        Some(rest)
    } else {
        None
    }
}

/// What follows the word, as it is written, if the tokens begin with it.
pub fn after_word<'a, 't>(tokens: &'t [Token<'a>], fixed: &[u8]) -> Option<&'t [Token<'a>]>
    ensures { option_map (λ rest. plains rest.now) result
        ≡ after_word fixed.now (plains tokens.now) }
{
    let (first, rest) = split_first(tokens)?;
    if is_word(first, fixed) {
        Some(rest)
    } else {
        None
    }
}

/// What follows the sign, if the tokens begin with it.
pub fn after_sign<'a, 't>(tokens: &'t [Token<'a>], sign: Sign) -> Option<&'t [Token<'a>]>
    ensures { option_map (λ rest. plains rest.now) result ≡ after_sign sign (plains tokens.now) }
{
    let (first, rest) = split_first(tokens)?;
    if is_sign(first, sign) {
        Some(rest)
    } else {
        None
    }
}

/// The name that the tokens begin with, and what follows it.
pub fn split_name<'a, 't>(tokens: &'t [Token<'a>]) -> Option<(&'a [u8], &'t [Token<'a>])>
    ensures { option_map (λ x. (x.0.now, plains x.1.now)) result ≡ split_name (plains tokens.now) }
{
    let (first, rest) = split_first(tokens)?;
    let name = name_of(first)?;
    Some((name, rest))
}

/// The number below 2^64 that the tokens begin with, and what follows it.
pub fn split_number<'a, 't>(tokens: &'t [Token<'a>]) -> Option<(u64, &'t [Token<'a>])>
    ensures { option_map (λ x. (x.0, plains x.1.now)) result ≡ split_number (plains tokens.now) }
{
    let (first, rest) = split_first(tokens)?;
    match first {
        Token::Digits(digits) => {
            let number = number_of(digits)?;
            Some((number, rest))
        }
        _ => None,
    }
}
