//! Scalar types by their names: integers, Date, DateTime, String, FixedString.

ghost use Rattle.std.specs.Prelude.{◌≡◌, ◌≤◌, IfSome, option_copied};
ghost use Rattle.mt_types.specs.NameReading.{between, integer_named, next_size, number_named};
ghost use Rattle.mt_types.specs.NameReading.{scalar_named, size_named, sized_named, width_named};

use crate::limits::MAX_FIXED_STRING;
use crate::ty::name::moment_name;
use crate::ty::{Ty, Width};

/// What stands between an opening and a closing parenthesis.
pub(super) fn between<'a>(opening: &[u8], text: &'a [u8]) -> Option<&'a [u8]>
    ensures { option_copied result ≡ between opening.now text.now }
{
    text.strip_prefix(opening)?.strip_suffix(b")")
}

/// An integer type, Date, DateTime('UTC'), String or FixedString.
pub(super) fn read_scalar(text: &[u8]) -> Option<Ty>
    ensures { result ≡ scalar_named text.now }
{
    if text == b"String".as_slice() {
        return Some(Ty::Str);
    }
    if text == moment_name() {
        return Some(Ty::Moment);
    }
    if text == b"UInt128".as_slice() {
        return Some(Ty::UInt(Width::W128));
    }
    if text == b"Int128".as_slice() {
        return Some(Ty::Int(Width::W128));
    }
    read_sized(text)
}

/// FixedString, an integer type of at most 64 bits, or Date.
fn read_sized(text: &[u8]) -> Option<Ty>
    ensures { result ≡ sized_named text.now }
{
    match between(b"FixedString(", text) {
        Some(digits) => Some(Ty::FixedString(read_size(digits)?)),
        None => read_number(text),
    }
}

/// An integer type of at most 64 bits, or Date.
pub(super) fn read_number(text: &[u8]) -> Option<Ty>
    ensures { result ≡ number_named text.now }
{
    if text == b"Date".as_slice() {
        return Some(Ty::Date);
    }
    read_integer(text)
}

/// An integer type of at most 64 bits.
pub(super) fn read_integer(text: &[u8]) -> Option<Ty>
    ensures { result ≡ integer_named text.now }
{
    if let Some(bits) = text.strip_prefix(b"UInt") {
        return Some(Ty::UInt(read_width(bits)?));
    }
    let bits = text.strip_prefix(b"Int")?;
    Some(Ty::Int(read_width(bits)?))
}

/// The width of so many bits, at most 64, in decimal.
fn read_width(bits: &[u8]) -> Option<Width>
    ensures { result ≡ width_named bits.now }
{
    match bits {
        b"8" => Some(Width::W8),
        b"16" => Some(Width::W16),
        b"32" => Some(Width::W32),
        b"64" => Some(Width::W64),
        _ => None,
    }
}

/// A size from 1 to `MAX_FIXED_STRING`, in decimal without leading zeros.
fn read_size(digits: &[u8]) -> Option<u32>
    ensures { result ≡ size_named digits.now }
{
    if digits.is_empty() {
        return None;
    }
    let mut size = 0;
    for &digit in digits {
        size = next_size(size, digit)?;
    }
    Some(size)
}

/// The size with one digit more, unless that is 0 or above the limit.
fn next_size(size: u32, digit: u8) -> Option<u32>
    requires { size ≤ MAX_FIXED_STRING }
    ensures value { result ≡ next_size size digit }
    ensures small { IfSome result (λ next. next ≤ MAX_FIXED_STRING) }
{
    if !digit.is_ascii_digit() {
        return None;
    }
    let next = size * 10 + u32::from(digit - b'0');
    if 1 <= next && next <= MAX_FIXED_STRING {
        Some(next)
    } else {
        None
    }
}
