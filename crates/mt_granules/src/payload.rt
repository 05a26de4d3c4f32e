//! The payload of one granule in a data file.

ghost use Rattle.std.specs.Prelude.{◌≡◌, [], ◌+◌, ◌<◌, ◌≤◌, ◌++◌, ◌^◌, List as Seq, ℕ, length, take, drop, sum, IfOk, OnOk, slice_index_or};
ghost use Rattle.std.specs.Int.{w32, to_le_bytes};
ghost use Rattle.mt_defs.specs.Frames.{Block, IsBlock, IsFileOf, block_bytes, payload_of};
ghost use Rattle.mt_granules.specs.PayloadReading.{granules_of, mark_count, positions_of};
ghost use Rattle.mt_granules.specs.PayloadView.{bytes_of_payload, payloads_in};
ghost use Rattle.mt_granules.specs.Walking.{HasPayload, StartsWithFrame};

use crate::payloads::{Payload, Payloads};
use mt_defs::HEADER_BYTES;
use mt_marks::{Marks, resolve};
use mt_types::{List, NoMemory};
use std::alloc::Global;

/// Where the length of a frame's payload stands in its header, in bytes.
const PAYLOAD_SIZE_OFFSET: usize = 21;

impl<'a> Payloads<'a> {
    /// The rows of each granule.
    pub fn granules(&self) -> &[u64]
        ensures { result.now ≡ granules_of self.now.marks }
    {
        match self.marks.rows.as_slice().split_last() {
            Some((_, granules)) => granules,
            None => &[],
        }
    }

    /// The rows of each granule, without a copy.
    pub fn into_granules(self) -> List<u64>
        ensures { result ≡ granules_of self.entry.marks }
    {
        let Payloads { marks, .. } = self;
        let Marks { rows, .. } = marks;
        let mut rows = rows.into_vec();
        rows.pop();
        List::of(rows)
    }

    /// The payload of a mark, by the mark's index in the order of the file: from its position to that of
    /// the next mark. Where it lies in one frame it isn't copied.
    pub fn payload(&self, alloc: Global, index: usize) -> Result<Payload<'a>, NoMemory>
        requires { index < mark_count self.now.marks }
        ensures { IfOk result (λ payload.
            bytes_of_payload payload ≡ slice_index_or (payloads_in self.now).payloads index []) }
    {
        let mark = self.marks.places.as_slice()[index];
        let size = self.position(index + 1) - self.position(index);
        let frames = tail(self.file, mark.offset as usize);
        let payload = payload_from(alloc, frames, mark.inner as usize, size as usize)?;
        Ok(payload)
    }

    /// The position of a mark, by the mark's index.
    fn position(&self, index: usize) -> u64
        requires { index < length self.now.marks.places }
        ensures { result ≡ slice_index_or (positions_of self.now.frames self.now.marks) index 0 }
    {
        resolve(&self.frames, &self.marks.places.as_slice()[index]).unwrap_or(0)
    }
}

impl<'a> Payload<'a> {
    /// The bytes.
    pub fn as_slice(&self) -> &[u8]
        ensures { result.now ≡ bytes_of_payload self.now }
    {
        match self {
            Payload::InFile(bytes) => bytes,
            Payload::Joined(bytes) => bytes.as_slice(),
        }
    }
}

/// The bytes from an offset on.
fn tail(bytes: &[u8], offset: usize) -> &[u8]
    requires { offset ≤ length bytes.now }
    ensures { result.now ≡ drop offset bytes.now }
{
    &bytes[offset..]
}

/// So many bytes of the payload of some frames, from an offset in the first frame's payload on.
fn payload_from<'a>(
    alloc: Global,
    frames: &'a [u8],
    inner: usize,
    size: usize,
) -> Result<Payload<'a>, NoMemory>
    requires { HasPayload frames.now inner size }
    ensures { IfOk result (λ payload. (blocks : Seq Block) → IsFileOf blocks frames.now
        → bytes_of_payload payload ≡ take size (drop inner (payload_of blocks))) }
{
    if size == 0 {
        return Ok(Payload::InFile(&[]));
    }
    let (payload, after) = split_frame(frames);
    let first = tail(payload, inner);
    if size <= first.len() {
        return Ok(Payload::InFile(&first[..size]));
    }
    let mut bytes = Vec::with_capacity(alloc, size)?;
    bytes.extend_from_slice(first)?;
    append_payloads(after, size - first.len(), &mut bytes)?;
    Ok(Payload::Joined(List::of(bytes)))
}

/// Appends so many bytes of the payload of some frames.
fn append_payloads(frames: &[u8], size: usize, out: &mut Vec<u8>) -> Result<(), NoMemory>
    requires { HasPayload frames.now 0 size }
    ensures { OnOk result ((blocks : Seq Block) → IsFileOf blocks frames.now
        → out.new.items ≡ out.old.items ++ take size (payload_of blocks)) }
{
    let mut rest = frames;
    let mut left = size;
    while left > 0 {
        let (payload, after) = split_frame(rest);
        let count = left.min(payload.len());
        out.extend_from_slice(&payload[..count])?;
        left -= count;
        rest = after;
    }
    Ok(())
}

/// The payload of the first of some frames, and the others.
fn split_frame(frames: &[u8]) -> (&[u8], &[u8])
    requires { StartsWithFrame frames.now }
    ensures { (block : Block) (rest : Seq ℕ) → frames.now ≡ block_bytes block ++ rest
        → IsBlock block → (result.0.now ≡ block.payload) × (result.1.now ≡ rest) }
{
    let (header, payloads) = frames.split_at(HEADER_BYTES as usize);
    payloads.split_at(payload_size(header))
}

/// The length of the payload, by a frame's header.
fn payload_size(header: &[u8]) -> usize
    requires { length header.now ≡ HEADER_BYTES }
    ensures bytes { to_le_bytes w32 result ≡ take 4 (drop 21 header.now) }
    ensures small { result < 2 ^ 32 }
{
    u32::from_le_bytes([
        header[PAYLOAD_SIZE_OFFSET],
        header[PAYLOAD_SIZE_OFFSET + 1],
        header[PAYLOAD_SIZE_OFFSET + 2],
        header[PAYLOAD_SIZE_OFFSET + 3],
    ]) as usize
}
