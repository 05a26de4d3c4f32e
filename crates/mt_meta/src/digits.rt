//! Whole numbers as text.

ghost use Rattle.std.specs.Prelude.{◌≡◌, ◌<◌, ◌^◌, IsTrue};
ghost use Rattle.std.specs.Option.{SomeIff};
ghost use Rattle.std.specs.Str.{all_ascii_digits};
ghost use Rattle.std.specs.Str.Parse.{digits_value};

/// Whether each byte is a decimal digit.
pub(crate) fn all_digits(text: &[u8]) -> bool
    ensures { result ≡ all_ascii_digits text.now }
{
    for c in text {
        if !c.is_ascii_digit() {
            return false;
        }
    }
    true
}

/// The number that decimal digits stand for, if it is below 2^64.
pub(crate) fn magnitude(digits: &[u8]) -> Option<u64>
    requires { IsTrue (all_ascii_digits digits.now) }
    ensures { SomeIff result (digits_value 10 digits.now < 2 ^ 64) (digits_value 10 digits.now) }
{
    let mut n = 0u64;
    for c in digits {
        n = n.checked_mul(10)?.checked_add((*c - b'0') as u64)?;
    }
    Some(n)
}
