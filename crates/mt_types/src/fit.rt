//! Which values a type has.

ghost use Rattle.std.specs.Prelude.{◌≡◌, ◌==◌, ◌&&◌, nat_le, length, pos};
ghost use Rattle.std.specs.List.{list_all};
ghost use Rattle.mt_types.specs.Bytes.{is_byte};
ghost use Rattle.mt_types.specs.declared.value.Value.TheOpen.Value-F.{Huge, Num};
ghost use Rattle.mt_types.specs.Fits.{bits, fits_of, is_signed, is_unsigned, natural_at};
ghost use Rattle.mt_types.specs.Fits.{is_count, is_least_of, is_state_of};

use crate::limits::{MAX_ELEMENTS, MAX_TEXT};
use crate::ty::{Agg, Ty, Width};
use crate::value::{AggState, Value};

impl Width {
    /// Whether the number is at most 2^bits - 1.
    pub fn holds_unsigned(self, number: u128) -> bool
        ensures { result ≡ is_unsigned (bits self) (pos number) }
    {
        match self {
            Width::W8 => number < 0x100,
            Width::W16 => number < 0x1_0000,
            Width::W32 => number < 0x1_0000_0000,
            Width::W64 => number < 0x1_0000_0000_0000_0000,
            Width::W128 => true,
        }
    }

    /// Whether the number is from -2^(bits - 1) to 2^(bits - 1) - 1.
    pub fn holds_signed(self, number: i128) -> bool
        ensures { result ≡ is_signed (bits self) number }
    {
        match self {
            Width::W8 => -0x80 <= number && number < 0x80,
            Width::W16 => -0x8000 <= number && number < 0x8000,
            Width::W32 => -0x8000_0000 <= number && number < 0x8000_0000,
            Width::W64 => -0x8000_0000_0000_0000 <= number && number < 0x8000_0000_0000_0000,
            Width::W128 => true,
        }
    }
}

/// Whether the value is one of the type's. It takes no memory.
#[cycle(fits)]
pub fn fits(ty: &Ty, value: &Value) -> bool
    ensures { result ≡ fits_of ty.now value.now }
{
    match (ty, value) {
        (Ty::UInt(width), Value::Num(number)) => num_fits(*width, *number),
        (Ty::UInt(width), Value::Huge(number)) => huge_fits(*width, *number),
        (Ty::Int(width), Value::Num(number)) => width.holds_signed(*number),
        (Ty::Date, Value::Num(day)) => is_natural(Width::W16, *day),
        (Ty::Moment, Value::Num(second)) => is_natural(Width::W32, *second),
        (Ty::FixedString(size), Value::Text(bytes)) => fixed_fits(*size, bytes.as_slice()),
        (Ty::Str, Value::Text(bytes)) => text_fits(bytes.as_slice()),
        (Ty::Nullable(_), Value::Null) => true,
        (Ty::Nullable(inner), _) => fits(inner.get(), value),
        (Ty::Array(inner), Value::List(items)) => {
            items.len() <= MAX_ELEMENTS && all_fit(inner.get(), items.as_slice())
        }
        (Ty::State(agg, inner), Value::State(state)) => state_fits(*agg, inner.get(), *state),
        (Ty::CountState, Value::State(state)) => is_count(*state),
        _ => false,
    }
}

/// Whether the number is from 0 to 2^bits - 1.
fn is_natural(width: Width, number: i128) -> bool
    ensures { result ≡ is_unsigned (bits width) number }
{
    number >= 0 && width.holds_unsigned(number.cast_unsigned())
}

fn num_fits(width: Width, number: i128) -> bool
    ensures { result ≡ natural_at width (Num number) }
{
    is_natural(width, number)
}

fn huge_fits(width: Width, number: u128) -> bool
    ensures { result ≡ natural_at width (Huge number) }
{
    match width {
        Width::W128 => number >= 0x8000_0000_0000_0000_0000_0000_0000_0000,
        _ => false,
    }
}

fn fixed_fits(size: u32, bytes: &[u8]) -> bool
    ensures { result ≡ (length bytes.now == size && list_all is_byte bytes.now) }
{
    bytes.len() == size as usize
}

fn text_fits(bytes: &[u8]) -> bool
    ensures { result ≡ (nat_le (length bytes.now) MAX_TEXT && list_all is_byte bytes.now) }
{
    bytes.len() <= MAX_TEXT
}

#[cycle(fits)]
fn all_fit(ty: &Ty, items: &[Value]) -> bool
    ensures { result ≡ list_all (fits_of ty.now) items.now }
{
    for item in items {
        if !fits(ty, item) {
            return false;
        }
    }
    true
}

#[cycle(fits)]
fn state_fits(agg: Agg, argument: &Ty, state: AggState) -> bool
    ensures { result ≡ is_state_of agg (fits_of argument.now) state }
{
    match (agg, state) {
        (Agg::Sum, AggState::Sum(_)) => true,
        (Agg::Min, AggState::Least(number)) => number_fits(argument, number),
        (Agg::Max, AggState::Greatest(number)) => number_fits(argument, number),
        _ => false,
    }
}

#[cycle(fits)]
fn number_fits(argument: &Ty, number: Option<i128>) -> bool
    ensures { result ≡ is_least_of (fits_of argument.now) number }
{
    match number {
        None => true,
        Some(number) => fits(argument, &Value::Num(number)),
    }
}

fn is_count(state: AggState) -> bool
    ensures { result ≡ is_count state }
{
    matches!(state, AggState::Count(_))
}
