//! Digits as numbers.

ghost use Rattle.std.specs.Prelude.{◌≡◌, ◌<◌, ◌^◌, IsTrue, Some, None, nat_lt, if◌then◌else◌};
ghost use Rattle.std.specs.Option.{SomeIff};
ghost use Rattle.std.specs.Str.{all_ascii_digits};
ghost use Rattle.std.specs.Str.Parse.{digits_value};
ghost use Rattle.mt_tokens.specs.Numbers.{number_of, wide_number_of};

fn all_digits(bytes: &[u8]) -> bool
    ensures { result ≡ all_ascii_digits bytes.now }
{
    for c in bytes {
        if !c.is_ascii_digit() {
            return false;
        }
    }
    true
}

fn narrowed(number: u128) -> Option<u64>
    ensures { result ≡ (if nat_lt number (2 ^ 64) then Some number else None) }
{
    if number <= u64::MAX as u128 {
        Some(number as u64)
    } else {
        None
    }
}

/// The number that digits stand for, if it is below 2^128.
fn number_in(digits: &[u8]) -> Option<u128>
    requires { IsTrue (all_ascii_digits digits.now) }
    ensures { SomeIff result (digits_value 10 digits.now < 2 ^ 128) (digits_value 10 digits.now) }
{
    let mut number = 0u128;
    for c in digits {
        number = number.checked_mul(10)?.checked_add((*c - b'0') as u128)?;
    }
    Some(number)
}

/// The number of one or more digits, leading zeros allowed; none from 2^128 on, and none of other
/// bytes.
pub fn wide_number_of(digits: &[u8]) -> Option<u128>
    ensures { result ≡ wide_number_of digits.now }
{
    if digits.is_empty() {
        return None;
    }
    if !all_digits(digits) {
        return None;
    }
    number_in(digits)
}

/// The number of one or more digits, leading zeros allowed; none from 2^64 on, and none of other
/// bytes.
#[tactic(auto, using(crate::proofs::NumberLemmas::number_is_narrow))]
pub fn number_of(digits: &[u8]) -> Option<u64>
    ensures { result ≡ number_of digits.now }
{
    let number = wide_number_of(digits)?;
    narrowed(number)
}
