//! The header of a frame: which payload follows, by its fields in their order.

ghost use Rattle.std.specs.Prelude.{◌≡◌, ◌+◌, ◌≤◌, ◌<◌, ◌^◌, ℕ, List as Seq, length, take, drop, IfOk};
ghost use Rattle.std.specs.Int.{w32, to_le_bytes};
ghost use Rattle.mt_frame.specs.FrameReading.{frame_reading};
ghost use Rattle.mt_frame.specs.Results.{GivesPayload};

use crate::fault::FrameWhy;
use mt_defs::{HEADER_BYTES, MAX_PAYLOAD, METHOD_NONE, SIZES_EXTRA};

/// Where the method and the two sizes stand in a header, in bytes.
const METHOD_OFFSET: usize = 16;

const FRAME_SIZE_OFFSET: usize = 17;

const PAYLOAD_SIZE_OFFSET: usize = 21;

/// The length of the payload of a frame with this header, where `left` bytes of the file remain from
/// the frame's offset on.
pub fn payload_len(header: &[u8], left: u64) -> Result<u64, FrameWhy>
    requires header { length header.now ≡ HEADER_BYTES }
    requires long { HEADER_BYTES ≤ left }
    ensures gives { (bytes : Seq ℕ) → take HEADER_BYTES bytes ≡ header.now → length bytes ≡ left
        → GivesPayload bytes result (frame_reading bytes) }
    ensures bounds { IfOk result (λ n. (1 ≤ n) × (n ≤ MAX_PAYLOAD) × (HEADER_BYTES + n ≤ left)) }
{
    if header[METHOD_OFFSET] != METHOD_NONE {
        return Err(FrameWhy::Method);
    }
    let frame_size = number_at(header, FRAME_SIZE_OFFSET);
    let payload_size = number_at(header, PAYLOAD_SIZE_OFFSET);
    if frame_size != payload_size + SIZES_EXTRA as u64 {
        return Err(FrameWhy::Sizes);
    }
    if payload_size == 0 {
        return Err(FrameWhy::Sizes);
    }
    if payload_size > MAX_PAYLOAD {
        return Err(FrameWhy::TooLong);
    }
    if left < HEADER_BYTES as u64 + payload_size {
        return Err(FrameWhy::Cut);
    }
    Ok(payload_size)
}

/// The little-endian number of four bytes at an offset.
fn number_at(bytes: &[u8], offset: usize) -> u64
    requires { offset + 4 ≤ length bytes.now }
    ensures bytes { to_le_bytes w32 result ≡ take 4 (drop offset bytes.now) }
    ensures small { result < 2 ^ 32 }
{
    u32::from_le_bytes([
        bytes[offset],
        bytes[offset + 1],
        bytes[offset + 2],
        bytes[offset + 3],
    ]) as u64
}
