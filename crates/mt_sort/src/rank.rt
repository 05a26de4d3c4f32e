//! The rank of a value: a number that never falls along the order on values.

ghost use Rattle.std.specs.Prelude.{◌≡◌, pos, slice_index_or};
ghost use Rattle.mt_defs.specs.Rows.{cell};
ghost use Rattle.mt_sort.specs.Ranks.{is_decided, number_rank, scale_of, text_rank, value_rank};

use mt_types::{Row, Ty, Value};

/// How the values of a column are ranked, so that few values of the column have one rank.
#[derive(Clone, Copy)]
pub enum Scale {
    /// Numbers; here is the rank of 0.
    Numbers(u64),
    /// Texts by their first 8 bytes.
    Texts,
}

/// The scale of a type's values. The numbers of a type differ in rank, but for its ends.
pub fn scale_of(ty: &Ty) -> Scale
    ensures { result ≡ scale_of ty.now }
{
    match ty {
        Ty::Int(_) => Scale::Numbers(1 << 63),
        Ty::UInt(_) | Ty::Date | Ty::Moment => Scale::Numbers(1),
        _ => Scale::Texts,
    }
}

/// Whether only one value that is no Huge has this rank: a number that neither end has cut off.
pub fn is_decided(scale: Scale, rank: u64) -> bool
    ensures { result ≡ is_decided scale rank }
{
    match scale {
        Scale::Numbers(_) => 0 < rank && rank < u64::MAX,
        Scale::Texts => false,
    }
}

/// The rank of a row's value in a column. A column that the row lacks counts as NULL.
pub fn column_rank(scale: Scale, column: u32, row: &Row) -> u64
    ensures { result ≡ value_rank scale (cell row.now column) }
{
    value_rank(
        scale,
        row.as_slice().get(column as usize).unwrap_or(&Value::Null),
    )
}

/// The rank of a value.
fn value_rank(scale: Scale, value: &Value) -> u64
    ensures { result ≡ value_rank scale value.now }
{
    match (scale, value) {
        (Scale::Numbers(zero), Value::Num(number)) => number_rank(zero, *number),
        (Scale::Numbers(zero), Value::Huge(number)) => natural_rank(zero, *number),
        (Scale::Texts, Value::Num(_) | Value::Huge(_)) => 0,
        (Scale::Texts, Value::Text(bytes)) => text_rank(bytes.as_slice()),
        _ => u64::MAX,
    }
}

/// How far the number is above the one of rank 0, at least 0 and at most `u64::MAX`.
fn number_rank(zero: u64, number: i128) -> u64
    ensures { result ≡ number_rank zero number }
{
    if number < 0 {
        zero.saturating_sub(u64::try_from(number.unsigned_abs()).unwrap_or(u64::MAX))
    } else {
        zero.saturating_add(u64::try_from(number).unwrap_or(u64::MAX))
    }
}

/// The same of a number from 0 on.
fn natural_rank(zero: u64, number: u128) -> u64
    ensures { result ≡ number_rank zero (pos number) }
{
    zero.saturating_add(u64::try_from(number).unwrap_or(u64::MAX))
}

/// The number that the first 8 bytes spell, zeros after the last.
fn text_rank(bytes: &[u8]) -> u64
    ensures { result ≡ text_rank bytes.now }
{
    u64::from_be_bytes([
        byte_at(bytes, 0),
        byte_at(bytes, 1),
        byte_at(bytes, 2),
        byte_at(bytes, 3),
        byte_at(bytes, 4),
        byte_at(bytes, 5),
        byte_at(bytes, 6),
        byte_at(bytes, 7),
    ])
}

/// The byte at a place, or 0 after the last.
fn byte_at(bytes: &[u8], place: usize) -> u8
    ensures { result ≡ slice_index_or bytes.now place 0 }
{
    bytes.get(place).copied().unwrap_or(0)
}
