//! Integers.

ghost use Rattle.std.specs.Prelude.{◌≡◌};
ghost use Rattle.mt_types.specs.Fits.{bits, is_unsigned, is_signed};
ghost use Rattle.mt_tsv.specs.Scalars.{whole_number_of, whole_of};

use crate::digits::read_magnitude;
use crate::fault::RowWhy;
use mt_types::{Value, Width};

/// The number of an unsigned type.
#[tactic(auto, unfolding(crate::specs::Scalars::integer_of, crate::specs::Scalars::whole_number_of))]
pub fn read_unsigned(width: Width, text: &[u8]) -> Result<Value, RowWhy>
    ensures { result ≡ whole_of (is_unsigned (bits width)) text.now }
{
    match text {
        [] => Err(RowWhy::Number),
        [b'-', digits @ ..] => match read_magnitude(digits)? {
            0 => Ok(Value::Num(0)),
            _ => Err(RowWhy::Range),
        },
        _ => {
            let n = read_magnitude(text)?;
            if width.holds_unsigned(n) {
                Ok(Value::number(n))
            } else {
                Err(RowWhy::Range)
            }
        }
    }
}

/// A number of 128 bits signed.
#[tactic(auto, unfolding(crate::specs::Scalars::integer_of, crate::specs::Scalars::whole_number_of))]
fn read_integer(text: &[u8]) -> Result<i128, RowWhy>
    ensures { result ≡ whole_number_of (is_signed 128) text.now }
{
    let number = match text {
        [] => return Err(RowWhy::Number),
        [b'-', digits @ ..] => 0i128.checked_sub_unsigned(read_magnitude(digits)?),
        _ => 0i128.checked_add_unsigned(read_magnitude(text)?),
    };
    match number {
        Some(n) => Ok(n),
        None => Err(RowWhy::Range),
    }
}

/// The number of a signed type.
pub fn read_signed(width: Width, text: &[u8]) -> Result<Value, RowWhy>
    ensures { result ≡ whole_of (is_signed (bits width)) text.now }
{
    match read_integer(text) {
        Err(why) => Err(why),
        Ok(n) => {
            if width.holds_signed(n) {
                Ok(Value::Num(n))
            } else {
                Err(RowWhy::Range)
            }
        }
    }
}
