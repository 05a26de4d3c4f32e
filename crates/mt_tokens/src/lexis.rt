//! The token that stands at the front of a text, the longest one.

ghost use Rattle.std.specs.Prelude.{◌≡◌, ◌∷◌, ◌==◌, [], MatchOption, Some, option_map, position};
ghost use Rattle.std.specs.List.{prefix_len, list_all};
ghost use Rattle.std.specs.Char.{is_ascii_digit};
ghost use Rattle.mt_tokens.specs.declared.ascii.TheConstants.{BACKQUOTE};
ghost use Rattle.mt_types.specs.Words.{is_word_byte, is_name, is_word_text};
ghost use Rattle.mt_tokens.specs.Bytes.{is_blank};
ghost use Rattle.mt_tokens.specs.Tokens.{Word, Digits, as_read};
ghost use Rattle.mt_tokens.specs.Lexis.{run_of, text_after_quote, quoted_at, token_at, skip_blanks};

use crate::ascii::{BACKQUOTE, QUOTE, is_blank, is_word_byte, is_word_start};
use crate::escape::text_len;
use crate::sign::split_sign;
use crate::token::Token;
use mt_types::MAX_NAME;

/// The first byte and the others.
pub(crate) fn split_byte(bytes: &[u8]) -> Option<(u8, &[u8])>
    ensures { MatchOption result (bytes.now ≡ []) (λ p. bytes.now ≡ p.0 ∷ p.1.now) }
{
    let (first, rest) = bytes.split_first()?;
    Some((*first, rest))
}

fn blanks_len(bytes: &[u8]) -> usize
    ensures { result ≡ prefix_len is_blank bytes.now }
{
    bytes.iter().take_while(|c| is_blank(**c)).count()
}

fn word_len(bytes: &[u8]) -> usize
    ensures { result ≡ prefix_len is_word_byte bytes.now }
{
    bytes.iter().take_while(|c| is_word_byte(**c)).count()
}

fn digits_len(bytes: &[u8]) -> usize
    ensures { result ≡ prefix_len is_ascii_digit bytes.now }
{
    bytes.iter().take_while(|c| c.is_ascii_digit()).count()
}

fn backquote(bytes: &[u8]) -> Option<usize>
    ensures { result ≡ position (λ c. c == BACKQUOTE) bytes.now }
{
    bytes.iter().position(|c| *c == BACKQUOTE)
}

/// What follows the blanks at the front.
pub(crate) fn skip_blanks(bytes: &[u8]) -> &[u8]
    ensures { result.now ≡ skip_blanks bytes.now }
{
    let (_, rest) = bytes.split_at(blanks_len(bytes));
    rest
}

/// The longest run of word bytes, and what follows it.
fn split_word(bytes: &[u8]) -> (&[u8], &[u8])
    ensures { Some (Word result.0.now, result.1.now) ≡ run_of Word is_word_byte bytes.now }
{
    bytes.split_at(word_len(bytes))
}

/// The longest run of digits, and what follows it.
fn split_digits(bytes: &[u8]) -> (&[u8], &[u8])
    ensures { Some (Digits result.0.now, result.1.now) ≡ run_of Digits is_ascii_digit bytes.now }
{
    bytes.split_at(digits_len(bytes))
}

/// The text that a quote before these bytes begins, and what follows its last quote.
fn split_text(bytes: &[u8]) -> Option<(Token<'_>, &[u8])>
    ensures { option_map (λ x. (as_read x.0, x.1.now)) result ≡ text_after_quote bytes.now }
{
    let count = text_len(bytes)?;
    let (body, rest) = bytes.split_at(count);
    let (_, rest) = rest.split_at(1);
    Some((Token::Text(body), rest))
}

fn all_word_bytes(bytes: &[u8]) -> bool
    ensures { result ≡ list_all is_word_byte bytes.now }
{
    bytes.iter().all(|c| is_word_byte(*c))
}

fn is_word_text(bytes: &[u8]) -> bool
    ensures { result ≡ is_word_text bytes.now }
{
    match split_byte(bytes) {
        Some((first, rest)) => is_word_start(first) && all_word_bytes(rest),
        None => false,
    }
}

/// Whether the bytes are a word of at most `MAX_NAME` bytes.
fn is_name(bytes: &[u8]) -> bool
    ensures { result ≡ is_name bytes.now }
{
    is_word_text(bytes) && bytes.len() <= MAX_NAME
}

/// The name that a backquote before these bytes begins, and what follows its last backquote.
fn split_quoted(bytes: &[u8]) -> Option<(Token<'_>, &[u8])>
    ensures { option_map (λ x. (as_read x.0, x.1.now)) result ≡ quoted_at bytes.now }
{
    let count = backquote(bytes)?;
    let (name, rest) = bytes.split_at(count);
    if !is_name(name) {
        return None;
    }
    let (_, rest) = rest.split_at(1);
    Some((Token::Quoted(name), rest))
}

/// The token at the front, and what follows it.
#[tactic(auto, unfolding(crate::specs::Lexis::token_at))]
pub(crate) fn split_token(bytes: &[u8]) -> Option<(Token<'_>, &[u8])>
    ensures { option_map (λ x. (as_read x.0, x.1.now)) result ≡ token_at bytes.now }
{
    let (first, rest) = split_byte(bytes)?;
    if is_word_start(first) {
        let (word, rest) = split_word(bytes);
        return Some((Token::Word(word), rest));
    }
    if first.is_ascii_digit() {
        let (digits, rest) = split_digits(bytes);
        return Some((Token::Digits(digits), rest));
    }
    if first == QUOTE {
        return split_text(rest);
    }
    if first == BACKQUOTE {
        return split_quoted(rest);
    }
    let (sign, rest) = split_sign(bytes)?;
    Some((Token::Sign(sign), rest))
}
