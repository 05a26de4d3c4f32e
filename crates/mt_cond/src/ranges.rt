//! The intervals of a key column past one value, up to one, and between two.

ghost use Rattle.std.specs.Prelude.{◌≡◌, pos};
ghost use Rattle.mt_types.specs.declared.ty.Ty.{out-Ty};
ghost use Rattle.mt_types.specs.Fits.{bits, number_value};
ghost use Rattle.mt_cond.specs.declared.types.End.TheVariants.{At};
ghost use Rattle.mt_cond.specs.Cover as cover;
ghost use Rattle.mt_cond.specs.Views.{end_of, interval_of};

use crate::bounds::{Bound, Bounds};
use crate::types::KeyColumn;
use mt_types::{Ty, Value, Width};

/// The numbers of a type.
#[derive(Clone, Copy)]
pub struct Range {
    /// The least of them.
    pub least: i128,
    /// The greatest of them.
    pub greatest: u128,
}

fn unsigned_range(width: Width) -> Range
    ensures { result ≡ cover.unsigned_range (bits width) }
{
    let greatest = match width {
        Width::W8 => 0xff,
        Width::W16 => 0xffff,
        Width::W32 => 0xffff_ffff,
        Width::W64 => 0xffff_ffff_ffff_ffff,
        Width::W128 => u128::MAX,
    };
    Range { least: 0, greatest }
}

fn signed_range(width: Width) -> Range
    ensures { result ≡ cover.signed_range (bits width) }
{
    let greatest: i128 = match width {
        Width::W8 => 0x7f,
        Width::W16 => 0x7fff,
        Width::W32 => 0x7fff_ffff,
        Width::W64 => 0x7fff_ffff_ffff_ffff,
        Width::W128 => i128::MAX,
    };
    Range {
        least: -greatest - 1,
        greatest: greatest.cast_unsigned(),
    }
}

/// The numbers of a type, if it has numbers.
fn range_of(ty: &Ty) -> Option<Range>
    ensures { result ≡ cover.range_at (out-Ty ty.now) }
{
    match ty {
        Ty::UInt(width) => Some(unsigned_range(*width)),
        Ty::Int(width) => Some(signed_range(*width)),
        Ty::Date => Some(unsigned_range(Width::W16)),
        Ty::Moment => Some(unsigned_range(Width::W32)),
        _ => None,
    }
}

/// At a number.
fn at_number(number: u128) -> Bound<'static>
    ensures { end_of result ≡ At (number_value (pos number)) }
{
    if number < 0x8000_0000_0000_0000_0000_0000_0000_0000 {
        Bound::Number(number.cast_signed())
    } else {
        Bound::Huge(number)
    }
}

/// The lower end of all values of a type.
fn free_low(range: Option<Range>) -> Bound<'static>
    ensures { end_of result ≡ cover.free_low range }
{
    match range {
        Some(range) => Bound::Number(range.least),
        None => Bound::Free,
    }
}

/// The upper end of all values of a type.
fn free_high(range: Option<Range>) -> Bound<'static>
    ensures { end_of result ≡ cover.free_high range }
{
    match range {
        Some(range) => at_number(range.greatest),
        None => Bound::Free,
    }
}

/// At the number behind one that isn't negative, if the type has it, and else past the value.
fn at_next(range: Range, number: u128, value: &Value) -> Bound<'_>
    ensures { end_of result ≡ cover.end_after range value.now (pos number) }
{
    if number < range.greatest {
        at_number(number + 1)
    } else {
        Bound::Past(value)
    }
}

/// The lower end of the values past one: of numbers the next, if the type has one.
#[tactic(auto, using(crate::proofs::KeyLemmas::after_negative))]
fn past_low(range: Option<Range>, value: &Value) -> Bound<'_>
    ensures { end_of result ≡ cover.past_low range value.now }
{
    match (range, value) {
        (Some(range), Value::Num(n)) => {
            if *n < 0 {
                Bound::Number(*n + 1)
            } else {
                at_next(range, n.cast_unsigned(), value)
            }
        }
        (Some(range), Value::Huge(n)) => at_next(range, *n, value),
        _ => Bound::Past(value),
    }
}

/// The upper end of the values up to one: of numbers the former, if the type has one.
fn past_high(range: Option<Range>, value: &Value) -> Bound<'_>
    ensures { end_of result ≡ cover.past_high range value.now }
{
    match (range, value) {
        (Some(range), Value::Num(n)) => {
            if *n > range.least {
                Bound::Number(*n - 1)
            } else {
                Bound::Past(value)
            }
        }
        (Some(_), Value::Huge(n)) => at_number(n.saturating_sub(1)),
        _ => Bound::Past(value),
    }
}

/// The values of a column past one.
pub fn from_span<'a>(column: &KeyColumn, value: &'a Value) -> Bounds<'a>
    ensures { interval_of result ≡ cover.from_span column.now value.now }
{
    let range = range_of(&column.ty);
    Bounds {
        lo: past_low(range, value),
        hi: free_high(range),
    }
}

/// The values of a column up to one, itself outside.
pub fn to_span<'a>(column: &KeyColumn, value: &'a Value) -> Bounds<'a>
    ensures { interval_of result ≡ cover.to_span column.now value.now }
{
    let range = range_of(&column.ty);
    Bounds {
        lo: free_low(range),
        hi: past_high(range, value),
    }
}

/// The values of a column between two, both outside.
pub fn both_span<'a>(column: &KeyColumn, low: &'a Value, high: &'a Value) -> Bounds<'a>
    ensures { interval_of result ≡ cover.both_span column.now low.now high.now }
{
    let range = range_of(&column.ty);
    Bounds {
        lo: past_low(range, low),
        hi: past_high(range, high),
    }
}
