//! The rank of a value: a number that never falls along the order on values.

ghost use Rattle.std.specs.Prelude.{◌≡◌, pos, slice_index_or};
ghost use Rattle.mt_cells.specs.Items.{OfCells};
ghost use Rattle.mt_cells.specs.Seen.{value_seen};
ghost use Rattle.mt_sort.specs.Ranks.{number_rank, text_rank};
ghost use Rattle.mt_blocks.specs.Ranks.{is_decided, kind_scale, rank_in, scale_of, seen_rank};
ghost use Rattle.mt_blocks.specs.Ranks.{value_rank, width_scale};

use mt_cells::{Items, Kind, Seen};
use mt_columns::Column;
use mt_types::Width;

/// How the values of a column are ranked, so that few values of the column have one rank.
#[derive(Clone, Copy)]
pub(crate) enum Scale {
    /// Numbers of at most 64 bits; here is the rank of 0.
    Numbers(u64),
    /// Numbers of 128 bits; here is the rank of 0.
    Wide(u64),
    /// Texts by their first 8 bytes.
    Texts,
}

/// The scale of a column's values.
pub(crate) fn scale_of(column: &Column) -> Scale
    ensures { result ≡ scale_of column.now }
{
    let (_, leaf) = column.parts();
    match leaf.items() {
        Items::Cells(cells) => scale_of_kind(cells.kind()),
        _ => Scale::Texts,
    }
}

fn scale_of_kind(kind: Kind) -> Scale
    ensures { result ≡ kind_scale (OfCells kind) }
{
    match kind {
        Kind::Unsigned(width) => scale_of_width(width, 1),
        Kind::Signed(width) => scale_of_width(width, 1 << 63),
        Kind::Text(_) => Scale::Texts,
    }
}

fn scale_of_width(width: Width, zero: u64) -> Scale
    ensures { result ≡ width_scale width zero }
{
    match width {
        Width::W8 | Width::W16 | Width::W32 | Width::W64 => Scale::Numbers(zero),
        Width::W128 => Scale::Wide(zero),
    }
}

/// The rank of a column's value at an index. A value that the column lacks counts as NULL.
pub(crate) fn rank_at(column: &Column, index: usize) -> u64
    ensures { result ≡ rank_in column.now index }
{
    if column.is_flat() {
        rank_of_seen(scale_of(column), column.seen_or_null(index))
    } else {
        0
    }
}

fn rank_of_seen(scale: Scale, seen: Seen<'_>) -> u64
    ensures { result ≡ value_rank scale (value_seen seen.entry) }
{
    rank_of(scale, seen)
}

fn rank_of(scale: Scale, seen: Seen<'_>) -> u64
    ensures { result ≡ seen_rank scale seen.entry }
{
    match (scale, seen) {
        (Scale::Numbers(zero), Seen::Num(number)) => number_rank(zero, number),
        (Scale::Numbers(zero), Seen::Huge(number)) => natural_rank(zero, number),
        (Scale::Wide(zero), Seen::Num(number)) => number_rank(zero, number),
        (Scale::Wide(zero), Seen::Huge(number)) => natural_rank(zero, number),
        (Scale::Texts, Seen::Num(_)) => 0,
        (Scale::Texts, Seen::Huge(_)) => 0,
        (Scale::Texts, Seen::Text(bytes)) => text_rank(bytes),
        _ => u64::MAX,
    }
}

/// How far the number is above the one of rank 0, at least 0 and at most `u64::MAX`.
fn number_rank(zero: u64, number: i128) -> u64
    ensures { result ≡ number_rank zero number }
{
    if number < 0 {
        zero.saturating_sub(u64::try_from(number.unsigned_abs()).unwrap_or(u64::MAX))
    } else {
        zero.saturating_add(u64::try_from(number).unwrap_or(u64::MAX))
    }
}

/// The same of a number from 0 on.
fn natural_rank(zero: u64, number: u128) -> u64
    ensures { result ≡ number_rank zero (pos number) }
{
    zero.saturating_add(u64::try_from(number).unwrap_or(u64::MAX))
}

/// The number that the first 8 bytes spell, zeros after the last.
fn text_rank(bytes: &[u8]) -> u64
    ensures { result ≡ text_rank bytes.now }
{
    u64::from_be_bytes([
        byte_at(bytes, 0),
        byte_at(bytes, 1),
        byte_at(bytes, 2),
        byte_at(bytes, 3),
        byte_at(bytes, 4),
        byte_at(bytes, 5),
        byte_at(bytes, 6),
        byte_at(bytes, 7),
    ])
}

/// The byte at a place, or 0 after the last.
fn byte_at(bytes: &[u8], place: usize) -> u8
    ensures { result ≡ slice_index_or bytes.now place 0 }
{
    bytes.get(place).copied().unwrap_or(0)
}

/// Whether only one value that is no Huge has this rank: a number that neither end has cut off.
pub(crate) fn is_decided(scale: Scale, rank: u64) -> bool
    ensures { result ≡ is_decided scale rank }
{
    match scale {
        Scale::Numbers(_) => 0 < rank && rank < u64::MAX,
        Scale::Wide(_) => false,
        Scale::Texts => false,
    }
}
