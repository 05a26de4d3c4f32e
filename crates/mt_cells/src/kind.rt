//! What items of a fixed width stand for.

ghost use Rattle.std.specs.Prelude.{◌≡◌, ◌<◌, ◌^◌, length};
ghost use Rattle.std.specs.Int.{byte_len, cast_signed, from_le_bytes, w8, w16, w32, w64, w128};
ghost use Rattle.mt_types.specs.Fits.{bits};
ghost use Rattle.mt_types.specs.Items.{width as words};
ghost use Rattle.mt_types.specs.Numbers.{width_size};
ghost use Rattle.mt_cells.specs.Kinds.{size_of};

use mt_types::Width;

/// What an item of a fixed width stands for.
#[derive(Clone, Copy, PartialEq)]
pub enum Kind {
    /// A number from 0 on, as of `UInt64`, `Date` or `DateTime('UTC')`.
    Unsigned(Width),
    /// A number in two's complement, as of `Int64`.
    Signed(Width),
    /// A text of so many bytes, as of `FixedString`.
    Text(u32),
}

impl Kind {
    /// The bytes of an item.
    pub fn size(self) -> usize
        ensures { result ≡ size_of self }
    {
        match self {
            Kind::Unsigned(width) => width_size(width),
            Kind::Signed(width) => width_size(width),
            Kind::Text(size) => size as usize,
        }
    }
}

/// The bytes of a number of this width.
fn width_size(width: Width) -> usize
    ensures { result ≡ width_size width }
{
    match width {
        Width::W8 => 1,
        Width::W16 => 2,
        Width::W32 => 4,
        Width::W64 => 8,
        Width::W128 => 16,
    }
}

/// The number that an item is, its low bytes first.
pub(crate) fn number_in(width: Width, item: &[u8]) -> u128
    requires { length item.now ≡ width_size width }
    ensures value { result ≡ from_le_bytes (words width) item.now }
    ensures bound { result < 2 ^ bits width }
{
    match width {
        Width::W8 => number_8(item),
        Width::W16 => number_16(item),
        Width::W32 => number_32(item),
        Width::W64 => number_64(item),
        Width::W128 => number_128(item),
    }
}

fn number_8(item: &[u8]) -> u128
    requires { length item.now ≡ 1 }
    ensures value { result ≡ from_le_bytes w8 item.now }
    ensures bound { result < 2 ^ 8 }
{
    u128::from(item[0])
}

fn number_16(item: &[u8]) -> u128
    requires { length item.now ≡ 2 }
    ensures value { result ≡ from_le_bytes w16 item.now }
    ensures bound { result < 2 ^ 16 }
{
    match item.split_first_chunk::<2>() {
        Some((first, _)) => u128::from(u16::from_le_bytes(*first)),
        None => unreachable!(),
    }
}

fn number_32(item: &[u8]) -> u128
    requires { length item.now ≡ 4 }
    ensures value { result ≡ from_le_bytes w32 item.now }
    ensures bound { result < 2 ^ 32 }
{
    match item.split_first_chunk::<4>() {
        Some((first, _)) => u128::from(u32::from_le_bytes(*first)),
        None => unreachable!(),
    }
}

fn number_64(item: &[u8]) -> u128
    requires { length item.now ≡ 8 }
    ensures value { result ≡ from_le_bytes w64 item.now }
    ensures bound { result < 2 ^ 64 }
{
    match item.split_first_chunk::<8>() {
        Some((first, _)) => u128::from(u64::from_le_bytes(*first)),
        None => unreachable!(),
    }
}

fn number_128(item: &[u8]) -> u128
    requires { length item.now ≡ 16 }
    ensures value { result ≡ from_le_bytes w128 item.now }
    ensures bound { result < 2 ^ 128 }
{
    match item.split_first_chunk::<16>() {
        Some((first, _)) => u128::from_le_bytes(*first),
        None => unreachable!(),
    }
}

/// The number that bits stand for in two's complement.
pub(crate) fn twos_complement(width: Width, number: u128) -> i128
    requires { number < 2 ^ bits width }
    ensures { result ≡ cast_signed (words width) number }
{
    match width {
        Width::W8 => i128::from((number as u8).cast_signed()),
        Width::W16 => i128::from((number as u16).cast_signed()),
        Width::W32 => i128::from((number as u32).cast_signed()),
        Width::W64 => i128::from((number as u64).cast_signed()),
        Width::W128 => number.cast_signed(),
    }
}
