//! Numbers below 100 as two digits.

ghost use Rattle.std.specs.Prelude.{◌≡◌, ◌<◌, IfSome};
ghost use Rattle.mt_calendar.specs.Dates.{two_digits, two_digits_at};

/// The number of two digits, if they are some.
pub fn two_digits_at(tens: u8, ones: u8) -> Option<u8>
    ensures value { result ≡ two_digits_at tens ones }
    ensures small { IfSome result (λ n. n < 100) }
{
    if tens.is_ascii_digit() && ones.is_ascii_digit() {
        Some((tens - b'0') * 10 + (ones - b'0'))
    } else {
        None
    }
}

/// The two digits of a number.
pub fn two_digits(n: u8) -> [u8; 2]
    requires { n < 100 }
    ensures { result ≡ two_digits n }
{
    [b'0' + n / 10, b'0' + n % 10]
}
