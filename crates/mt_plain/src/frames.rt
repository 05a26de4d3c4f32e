//! Frames: a header of 25 bytes, and the payload.

ghost use Rattle.std.specs.Prelude.{◌≡◌, ◌≤◌, ◌++◌, length, OnOk};
ghost use Rattle.mt_defs.specs.declared.frame.TheConstants.{FRAME_PAYLOAD};
ghost use Rattle.mt_defs.specs.WrittenFrames.{written_frame, written_frames};

use crate::items::append_u32;
use mt_defs::{FRAME_PAYLOAD, METHOD_NONE, SIZES_EXTRA};
use mt_types::{List, NoMemory};

/// The checksum, which the writer leaves at zero.
const CHECKSUM: [u8; 16] = [0; 16];

/// Appends the frames of a payload (docs/FORMAT.md, "Frames"): each of `FRAME_PAYLOAD` bytes but the
/// last, none for an empty payload.
pub(crate) fn append_frames(payload: &[u8], out: &mut List<u8>) -> Result<(), NoMemory>
    ensures { OnOk result (out.new ≡ out.old ++ written_frames payload.now) }
{
    let mut rest = payload;
    while !rest.is_empty() {
        let (piece, after) = rest.split_at(FRAME_PAYLOAD.min(rest.len()));
        append_frame(piece, out)?;
        rest = after;
    }
    Ok(())
}

/// Appends a frame, field by field.
fn append_frame(payload: &[u8], out: &mut List<u8>) -> Result<(), NoMemory>
    requires { length payload.now ≤ FRAME_PAYLOAD }
    ensures { OnOk result (out.new ≡ out.old ++ written_frame payload.now) }
{
    let size = payload.len() as u32;
    out.append(&CHECKSUM)?;
    out.push(METHOD_NONE)?;
    append_u32(size + SIZES_EXTRA, out)?;
    append_u32(size, out)?;
    out.append(payload)
}
