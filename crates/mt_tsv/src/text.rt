//! Texts with escapes.

ghost use Rattle.std.specs.Prelude.{◌≡◌, ◌++◌, ◌-◌, ◌≤◌, length, replicate, IfOk};
ghost use Rattle.mt_tsv.specs.Results.{GivesField};
ghost use Rattle.mt_tsv.specs.Texts.{escaped_byte, text_of, bounded_text, padded_text};

use crate::ascii::BACKSLASH;
use crate::fault::{FieldError, RowWhy};
use crate::split::{cut, split_first};
use mt_types::{List, MAX_TEXT, NoMemory};
use std::alloc::Global;

/// The byte that a backslash and this letter stand for.
fn unescaped(letter: u8) -> Option<u8>
    ensures { result ≡ escaped_byte letter }
{
    match letter {
        b'b' => Some(8),
        b'f' => Some(12),
        b'r' => Some(13),
        b'n' => Some(10),
        b't' => Some(9),
        b'0' => Some(0),
        b'\'' => Some(39),
        b'\\' => Some(92),
        _ => None,
    }
}

fn read_escapes(alloc: Global, field: &[u8]) -> Result<List<u8>, FieldError>
    ensures { GivesField result (text_of field.now) }
{
    let mut text = List::with_capacity(alloc, field.len())?;
    let mut rest = field;
    'runs: loop {
        let (run, after) = cut(rest, BACKSLASH);
        text.append(run)?;
        let Some(after) = after else {
            return Ok(text);
        };
        let Some((letter, after)) = split_first(after) else {
            return Err(FieldError::Bad(RowWhy::Escape));
        };
        let Some(byte) = unescaped(letter) else {
            return Err(FieldError::Bad(RowWhy::Escape));
        };
        text.push(byte)?;
        rest = after;
    }
}

/// The text of a `String`.
#[tactic(auto, unfolding(crate::specs::Texts::bounded_text))]
pub fn read_string(alloc: Global, field: &[u8]) -> Result<List<u8>, FieldError>
    ensures { GivesField result (bounded_text MAX_TEXT field.now) }
{
    let text = read_escapes(alloc, field)?;
    if text.len() > MAX_TEXT {
        return Err(FieldError::Bad(RowWhy::TooLong));
    }
    Ok(text)
}

fn pad(alloc: Global, size: usize, text: List<u8>) -> Result<List<u8>, NoMemory>
    requires { length text ≤ size }
    ensures { IfOk result (λ padded. padded ≡ text ++ replicate (size - length text) 0) }
{
    let missing = size - text.len();
    let mut padded = text;
    if missing > 0 {
        let zeros = List::of(vec![in alloc; 0; missing]?);
        padded.append(zeros.as_slice())?;
    }
    Ok(padded)
}

/// The text of a `FixedString` of so many bytes, a shorter one padded with zero bytes.
#[tactic(auto, unfolding(crate::specs::Texts::bounded_text, crate::specs::Texts::padded_text))]
pub fn read_fixed(alloc: Global, size: u32, field: &[u8]) -> Result<List<u8>, FieldError>
    ensures { GivesField result (padded_text size field.now) }
{
    let text = read_escapes(alloc, field)?;
    if text.len() > size as usize {
        return Err(FieldError::Bad(RowWhy::TooLong));
    }
    Ok(pad(alloc, size as usize, text)?)
}
