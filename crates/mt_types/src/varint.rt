//! Minimal LEB128: the lengths of strings and the counts of states.

ghost use Rattle.std.specs.Prelude.{◌≡◌, ◌≤◌, ◌++◌, length, drop};
ghost use Rattle.mt_types.specs.Leb128.{leb128, Reads};

/// What some bytes begin with.
#[derive(Clone, Copy, Debug, PartialEq)]
pub enum VarInt {
    /// A number below 2^64 in its shortest encoding, and how many bytes that takes.
    Got { value: u64, used: usize },
    /// All the bytes are a proper prefix of such an encoding.
    Short,
    /// Neither: an overlong encoding, or a number past 64 bits.
    Bad,
}

/// Writes a number's encoding at the start of `into`, and returns its length. Later bytes stay.
pub fn varint_put(value: u64, into: &mut [u8; 10]) -> usize
    ensures size { result ≡ length (leb128 value) }
    ensures bound { result ≤ 10 }
    ensures written { into.new ≡ leb128 value ++ drop (length (leb128 value)) into.old }
{
    let mut rest = value;
    for i in 0..9 {
        if rest < 128 {
            into[i] = rest as u8;
            return i + 1;
        }
        into[i] = (rest % 128) as u8 + 128;
        rest /= 128;
    }
    into[9] = rest as u8;
    10
}

/// The number whose encoding the bytes begin with. It takes no memory.
pub fn varint_get(bytes: &[u8]) -> VarInt
    ensures { Reads result bytes.now }
{
    let mut value: u64 = 0;
    let mut weight: u64 = 1;
    for i in 0..9 {
        if i >= bytes.len() {
            return VarInt::Short;
        }
        let byte = u64::from(bytes[i]);
        if byte < 128 {
            if byte == 0 && i > 0 {
                return VarInt::Bad;
            }
            return VarInt::Got {
                value: value + weight * byte,
                used: i + 1,
            };
        }
        value += weight * (byte - 128);
        weight *= 128;
    }
    if bytes.len() <= 9 {
        return VarInt::Short;
    }
    if bytes[9] != 1 {
        return VarInt::Bad;
    }
    VarInt::Got {
        value: value + weight,
        used: 10,
    }
}
