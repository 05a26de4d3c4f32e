//! Numbers behind a minus.

ghost use Rattle.std.specs.Prelude.{◌≡◌};
ghost use Rattle.mt_cond_syntax.specs.Numbers as numbers;

use mt_tokens::wide_number_of;

/// 2^127, the least number that 128 bits signed don't have.
const LIMIT: u128 = 0x8000_0000_0000_0000_0000_0000_0000_0000;

fn negated(magnitude: u128) -> Option<i128>
    ensures { result ≡ numbers.negated magnitude }
{
    if magnitude < LIMIT {
        return Some(-(magnitude as i128));
    }
    if magnitude == LIMIT {
        return Some(i128::MIN);
    }
    None
}

/// The number of a minus and digits, if 128 bits signed have it; none of other bytes.
pub(crate) fn negative_of(digits: &[u8]) -> Option<i128>
    ensures { result ≡ numbers.negative_of digits.now }
{
    let magnitude = wide_number_of(digits)?;
    negated(magnitude)
}
