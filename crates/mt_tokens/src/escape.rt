//! Texts in single quotes: where they end, and what they stand for.

ghost use Rattle.std.specs.Prelude.{◌≡◌, ◌<◌, ◌==◌, IfOk, IfSome, drop, length, not, take};
ghost use Rattle.std.specs.List.{prefix_len};
ghost use Rattle.mt_tokens.specs.declared.ascii.TheConstants.{BACKSLASH};
ghost use Rattle.mt_tokens.specs.Texts.{byte_of, escaped_byte, is_escape, text_len, unescaped};

use crate::ascii::{BACKSLASH, QUOTE};
use crate::lexis::split_byte;
use mt_types::{List, NoMemory};
use std::alloc::Global;

/// The byte that a backslash and this letter stand for.
fn escaped_byte(letter: u8) -> Option<u8>
    ensures { result ≡ escaped_byte letter }
{
    match letter {
        b'b' => Some(8),
        b'f' => Some(12),
        b'r' => Some(13),
        b'n' => Some(10),
        b't' => Some(9),
        b'0' => Some(0),
        b'\'' => Some(39),
        b'\\' => Some(92),
        _ => None,
    }
}

/// The byte that a backslash and this letter stand for, or else the letter.
fn byte_of(letter: u8) -> u8
    ensures { result ≡ byte_of letter }
{
    escaped_byte(letter).unwrap_or(letter)
}

/// Whether a backslash and this letter are an escape.
fn is_escape(letter: u8) -> bool
    ensures { result ≡ is_escape letter }
{
    escaped_byte(letter).is_some()
}

/// How many bytes stand before the quote that ends a text, if its escapes are good and one does.
pub(crate) fn text_len(bytes: &[u8]) -> Option<usize>
    ensures value { result ≡ text_len bytes.now }
    ensures within { IfSome result (λ n. n < length bytes.now) }
{
    let mut rest = bytes;
    let mut count = 0;
    'bytes: while let Some((first, after)) = split_byte(rest) {
        if first == QUOTE {
            return Some(count);
        }
        if first == BACKSLASH {
            let Some((letter, behind)) = split_byte(after) else {
                return None;
            };
            if !is_escape(letter) {
                return None;
            }
            count += 2;
            rest = behind;
        } else {
            count += 1;
            rest = after;
        }
    }
    None
}

fn run_len(bytes: &[u8]) -> usize
    ensures { result ≡ prefix_len (λ c. not (c == BACKSLASH)) bytes.now }
{
    bytes.iter().take_while(|c| **c != BACKSLASH).count()
}

/// The bytes before the first backslash, and what stands from it on.
fn split_run(bytes: &[u8]) -> (&[u8], &[u8])
    ensures run { let count = prefix_len (λ c. not (c == BACKSLASH)) bytes.now in
        result.0.now ≡ take count bytes.now }
    ensures rest { let count = prefix_len (λ c. not (c == BACKSLASH)) bytes.now in
        result.1.now ≡ drop count bytes.now }
{
    bytes.split_at(run_len(bytes))
}

/// The bytes that a text stands for, its escapes undone. Another letter than the eight, which no
/// token has behind a backslash, stands for itself.
pub fn unescaped(alloc: Global, text: &[u8]) -> Result<List<u8>, NoMemory>
    ensures { IfOk result (λ bytes. bytes ≡ unescaped text.now) }
{
    let mut bytes = List::with_capacity(alloc, text.len())?;
    let mut rest = text;
    'runs: loop {
        let (run, escaped) = split_run(rest);
        bytes.append(run)?;
        let Some((_, after)) = split_byte(escaped) else {
            return Ok(bytes);
        };
        let Some((letter, after)) = split_byte(after) else {
            return Ok(bytes);
        };
        bytes.push(byte_of(letter))?;
        rest = after;
    }
}
