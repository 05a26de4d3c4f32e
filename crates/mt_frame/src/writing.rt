//! Writing the frames of a payload.

ghost use Rattle.std.specs.Prelude.{◌≡◌, ◌+◌, ◌<◌, ◌≤◌, ◌^◌, ◌++◌, take, length, OnOk, OnErr, vec_len};
ghost use Rattle.mt_defs.specs.WrittenFrames.{written_frame, written_frames};

use mt_defs::{FRAME_PAYLOAD, METHOD_NONE, SIZES_EXTRA};
use mt_types::{List, NoMemory};
use std::alloc::Global;
use std::mem;

/// The checksum of a frame that the writer makes; readers pass it over.
const NO_CHECKSUM: [u8; 16] = [0; 16];

/// Appends the frames of a payload (docs/FORMAT.md, "Frames"): each of `FRAME_PAYLOAD` bytes but the
/// last, none for an empty payload. On `NoMemory` the list is unchanged.
pub fn put_frames(alloc: Global, payload: &[u8], out: &mut List<u8>) -> Result<(), NoMemory>
    ensures ok { OnOk result (out.new ≡ out.old ++ written_frames payload.now) }
    ensures err { OnErr result (out.new ≡ out.old) }
{
    let mut bytes = mem::replace(out, List::new(alloc)).into_vec();
    let len = bytes.len();
    let outcome = append_frames(payload, &mut bytes);
    if outcome.is_err() {
        bytes.truncate(len);
    }
    *out = List::of(bytes);
    outcome
}

/// On `NoMemory` a part of the frames may have been appended.
fn append_frames(payload: &[u8], out: &mut Vec<u8>) -> Result<(), NoMemory>
    ensures ok { OnOk result (out.new.items ≡ out.old.items ++ written_frames payload.now) }
    ensures err { OnErr result (take (vec_len out.old) out.new.items ≡ out.old.items) }
{
    let mut rest = payload;
    while !rest.is_empty() {
        let (piece, after) = rest.split_at(FRAME_PAYLOAD.min(rest.len()));
        append_frame(piece, out)?;
        rest = after;
    }
    Ok(())
}

/// On `NoMemory` a part of the frame may have been appended.
fn append_frame(payload: &[u8], out: &mut Vec<u8>) -> Result<(), NoMemory>
    requires { length payload.now + 9 < 2 ^ 32 }
    ensures ok { OnOk result (out.new.items ≡ out.old.items ++ written_frame payload.now) }
    ensures err { OnErr result (take (vec_len out.old) out.new.items ≡ out.old.items) }
{
    let len = payload.len() as u32;
    out.extend_from_slice(&NO_CHECKSUM)?;
    out.extend_from_slice(&[METHOD_NONE])?;
    out.extend_from_slice(&(len + SIZES_EXTRA).to_le_bytes())?;
    out.extend_from_slice(&len.to_le_bytes())?;
    out.extend_from_slice(payload)?;
    Ok(())
}
