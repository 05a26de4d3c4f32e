//! Whole numbers at the start of some bytes.

ghost use Rattle.std.specs.Prelude.{◌≡◌, ◌<◌, ◌^◌, IfSome, IsTrue, pos};
ghost use Rattle.std.specs.Int.{w8, w16, w32, w64, w128, cast_signed};
ghost use Rattle.mt_types.specs.declared.ty.Ty.{out-Ty};
ghost use Rattle.mt_types.specs.Fits.{bits, number_value};
ghost use Rattle.mt_types.specs.Items.{width as words};
ghost use Rattle.mt_types.specs.Numbers.{is_argument_type, is_narrow, is_number_type};
ghost use Rattle.mt_item.specs.ItemReading.{number_front, read_as, whole_front};
ghost use Rattle.mt_item.specs.Results.{GivesFirst};

use mt_types::{Ty, Value, Width};

/// The integer, day or second at the start, and what follows it, if there are so many bytes.
pub(crate) fn read_number<'a>(ty: &Ty, bytes: &'a [u8]) -> Option<(Value, &'a [u8])>
    requires { IsTrue (is_number_type ty.now) }
    ensures { GivesFirst result
        (read_as number_value (number_front (out-Ty ty.now) bytes.now)) }
{
    match ty {
        Ty::UInt(width) => natural_value(*width, bytes),
        Ty::Int(width) => signed_value(*width, bytes),
        Ty::Date => natural_value(Width::W16, bytes),
        Ty::Moment => natural_value(Width::W32, bytes),
        _ => unreachable!(),
    }
}

/// The number that min and max may have gathered at the start, and what follows it.
pub(crate) fn read_argument<'a>(ty: &Ty, bytes: &'a [u8]) -> Option<(i128, &'a [u8])>
    requires { IsTrue (is_argument_type ty.now) }
    ensures { GivesFirst result (number_front (out-Ty ty.now) bytes.now) }
{
    match ty {
        Ty::UInt(width) => natural(*width, bytes),
        Ty::Int(width) => signed(*width, bytes),
        Ty::Date => natural(Width::W16, bytes),
        _ => unreachable!(),
    }
}

fn natural_value(width: Width, bytes: &[u8]) -> Option<(Value, &[u8])>
    ensures { GivesFirst result
        (read_as number_value (read_as (λ n. pos n) (whole_front (words width) bytes.now))) }
{
    match read_bits(width, bytes) {
        Some((number, rest)) => Some((Value::number(number), rest)),
        None => None,
    }
}

fn signed_value(width: Width, bytes: &[u8]) -> Option<(Value, &[u8])>
    ensures { GivesFirst result (read_as number_value
        (read_as (cast_signed (words width)) (whole_front (words width) bytes.now))) }
{
    match signed(width, bytes) {
        Some((number, rest)) => Some((Value::Num(number), rest)),
        None => None,
    }
}

fn natural(width: Width, bytes: &[u8]) -> Option<(i128, &[u8])>
    requires { IsTrue (is_narrow width) }
    ensures { GivesFirst result (read_as (λ n. pos n) (whole_front (words width) bytes.now)) }
{
    match read_bits(width, bytes) {
        Some((number, rest)) => Some((number.cast_signed(), rest)),
        None => None,
    }
}

fn signed(width: Width, bytes: &[u8]) -> Option<(i128, &[u8])>
    ensures { GivesFirst result
        (read_as (cast_signed (words width)) (whole_front (words width) bytes.now)) }
{
    match read_bits(width, bytes) {
        Some((number, rest)) => Some((twos_complement(width, number), rest)),
        None => None,
    }
}

/// The number that bits stand for in two's complement.
fn twos_complement(width: Width, number: u128) -> i128
    requires { number < 2 ^ bits width }
    ensures { result ≡ cast_signed (words width) number }
{
    match width {
        Width::W8 => i128::from((number as u8).cast_signed()),
        Width::W16 => i128::from((number as u16).cast_signed()),
        Width::W32 => i128::from((number as u32).cast_signed()),
        Width::W64 => i128::from((number as u64).cast_signed()),
        Width::W128 => number.cast_signed(),
    }
}

/// The little-endian number of so many bits.
fn read_bits(width: Width, bytes: &[u8]) -> Option<(u128, &[u8])>
    ensures first { GivesFirst result (whole_front (words width) bytes.now) }
    ensures bound { IfSome result (λ read. read.0 < 2 ^ bits width) }
{
    match width {
        Width::W8 => read_u8(bytes),
        Width::W16 => read_u16(bytes),
        Width::W32 => read_u32(bytes),
        Width::W64 => widened(read_u64(bytes)),
        Width::W128 => read_u128(bytes),
    }
}

fn widened(read: Option<(u64, &[u8])>) -> Option<(u128, &[u8])>
    ensures { result ≡ read.entry }
{
    match read {
        Some((number, rest)) => Some((u128::from(number), rest)),
        None => None,
    }
}

fn read_u8(bytes: &[u8]) -> Option<(u128, &[u8])>
    ensures first { GivesFirst result (whole_front w8 bytes.now) }
    ensures bound { IfSome result (λ read. read.0 < 2 ^ 8) }
{
    match bytes.split_first_chunk::<1>() {
        Some((first, rest)) => Some((u128::from(u8::from_le_bytes(*first)), rest)),
        None => None,
    }
}

fn read_u16(bytes: &[u8]) -> Option<(u128, &[u8])>
    ensures first { GivesFirst result (whole_front w16 bytes.now) }
    ensures bound { IfSome result (λ read. read.0 < 2 ^ 16) }
{
    match bytes.split_first_chunk::<2>() {
        Some((first, rest)) => Some((u128::from(u16::from_le_bytes(*first)), rest)),
        None => None,
    }
}

fn read_u32(bytes: &[u8]) -> Option<(u128, &[u8])>
    ensures first { GivesFirst result (whole_front w32 bytes.now) }
    ensures bound { IfSome result (λ read. read.0 < 2 ^ 32) }
{
    match bytes.split_first_chunk::<4>() {
        Some((first, rest)) => Some((u128::from(u32::from_le_bytes(*first)), rest)),
        None => None,
    }
}

/// The little-endian number of 64 bits at the start, and what follows it.
pub fn read_u64(bytes: &[u8]) -> Option<(u64, &[u8])>
    ensures first { GivesFirst result (whole_front w64 bytes.now) }
    ensures bound { IfSome result (λ read. read.0 < 2 ^ 64) }
{
    match bytes.split_first_chunk::<8>() {
        Some((first, rest)) => Some((u64::from_le_bytes(*first), rest)),
        None => None,
    }
}

fn read_u128(bytes: &[u8]) -> Option<(u128, &[u8])>
    ensures first { GivesFirst result (whole_front w128 bytes.now) }
    ensures bound { IfSome result (λ read. read.0 < 2 ^ 128) }
{
    match bytes.split_first_chunk::<16>() {
        Some((first, rest)) => Some((u128::from_le_bytes(*first), rest)),
        None => None,
    }
}
