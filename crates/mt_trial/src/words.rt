//! The words NUMBER and ROWS.

ghost use Rattle.std.specs.Prelude.{◌≡◌, ◌≤◌, IfSome};
ghost use Rattle.mt_trial.specs.Words.{digits_after, number_in_word, row_count_in, with_number_digit};
ghost use Rattle.mt_trial.specs.declared.rows.TheConstants.{MAX_TRIAL_ROWS};

use crate::rows::MAX_TRIAL_ROWS;

/// A value with one digit more, if it stays below 2^64.
fn with_digit(value: u64, byte: u8) -> Option<u64>
    ensures { result ≡ with_number_digit value byte }
{
    if !byte.is_ascii_digit() {
        return None;
    }
    value.checked_mul(10)?.checked_add(u64::from(byte - b'0'))
}

/// The value of some digits.
fn value_of(word: &[u8]) -> Option<u64>
    ensures { result ≡ digits_after 0 word.now }
{
    let mut value = 0u64;
    for byte in word {
        value = with_digit(value, *byte)?;
    }
    Some(value)
}

/// The number below 2^64 that a word gives in decimal, without sign and leading zeros, if it gives one.
pub fn number_in(word: &[u8]) -> Option<u64>
    ensures { result ≡ number_in_word word.now }
{
    match word {
        [] => None,
        [b'0', _, ..] => None,
        _ => value_of(word),
    }
}

/// The number of rows that a word gives, from 2 to 1,048,576, if it gives one.
pub fn rows_in(word: &[u8]) -> Option<u64>
    ensures same { result ≡ row_count_in word.now }
    ensures few { IfSome result (λ rows. 2 ≤ rows) }
    ensures many { IfSome result (λ rows. rows ≤ MAX_TRIAL_ROWS) }
{
    match number_in(word) {
        Some(rows) if 2 <= rows && rows <= MAX_TRIAL_ROWS => Some(rows),
        _ => None,
    }
}
