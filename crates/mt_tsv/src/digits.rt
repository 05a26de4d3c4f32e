//! Digits as numbers.

ghost use Rattle.std.specs.Prelude.{◌≡◌, ◌+◌, ◌*◌, ◌<◌, ◌≤◌, ◌^◌, length, Some, None, IsTrue, if◌then◌else◌};
ghost use Rattle.std.specs.Option.{SomeIff};
ghost use Rattle.std.specs.Str.{all_ascii_digits};
ghost use Rattle.std.specs.Str.Parse.{digits_value, digits_value_after};
ghost use Rattle.mt_tsv.specs.declared.digits.TheConstants.{SHORT_DIGITS};
ghost use Rattle.mt_tsv.specs.Scalars.{magnitude_after, magnitude_of};

use crate::fault::RowWhy;

/// So many digits are always a number below 2^64.
const SHORT_DIGITS: usize = 19;

fn all_digits(text: &[u8]) -> bool
    ensures { result ≡ all_ascii_digits text.now }
{
    for c in text {
        if !c.is_ascii_digit() {
            return false;
        }
    }
    true
}

/// The number of a few digits, if all are digits.
fn short_number(text: &[u8]) -> Option<u64>
    requires { length text.now ≤ SHORT_DIGITS }
    ensures { result
        ≡ (if all_ascii_digits text.now then Some (digits_value 10 text.now) else None) }
{
    let mut number = 0u64;
    for c in text {
        if !c.is_ascii_digit() {
            return None;
        }
        number = number * 10 + (*c - b'0') as u64;
    }
    Some(number)
}

/// The number of the digits of one number and a few more, which make the other.
fn joined(number: u64, count: usize, next: u64) -> u128
    requires { count ≤ SHORT_DIGITS }
    ensures { result ≡ number * 10 ^ count + next }
{
    u128::from(number) * u128::from(10u64.pow(count as u32)) + u128::from(next)
}

/// The number of the digits of another number and these, if it is below 2^128.
fn number_after(first: u128, text: &[u8]) -> Option<u128>
    requires { IsTrue (all_ascii_digits text.now) }
    ensures { let number = digits_value_after 10 first text.now in
        SomeIff result (number < 2 ^ 128) number }
{
    let mut number = first;
    for c in text {
        number = number.checked_mul(10)?.checked_add((*c - b'0') as u128)?;
    }
    Some(number)
}

/// The number of the digits of another number and these, a few of them in 64 bits.
#[tactic(auto, unfolding(crate::specs::Scalars::magnitude_after))]
fn read_magnitude_after(first: u64, text: &[u8]) -> Result<u128, RowWhy>
    ensures { result ≡ magnitude_after first text.now }
{
    let (short, rest) = text.split_at(text.len().min(SHORT_DIGITS));
    let Some(number) = short_number(short) else {
        return Err(RowWhy::Number);
    };
    if !all_digits(rest) {
        return Err(RowWhy::Number);
    }
    match number_after(joined(first, short.len(), number), rest) {
        Some(n) => Ok(n),
        None => Err(RowWhy::Range),
    }
}

/// The number of a text of digits alone. None of a type has 2^128 or more.
#[tactic(auto, unfolding(crate::specs::Scalars::magnitude_of))]
pub fn read_magnitude(text: &[u8]) -> Result<u128, RowWhy>
    ensures { result ≡ magnitude_of text.now }
{
    if text.is_empty() {
        return Err(RowWhy::Number);
    }
    let (short, rest) = text.split_at(text.len().min(SHORT_DIGITS));
    let Some(number) = short_number(short) else {
        return Err(RowWhy::Number);
    };
    if rest.is_empty() {
        return Ok(u128::from(number));
    }
    read_magnitude_after(number, rest)
}
