//! Reading the frames of a whole file: headers alone.

ghost use Rattle.std.specs.Prelude.{◌≡◌, ◌+◌, ◌<◌, ◌≤◌, length, take, drop, IfOk};
ghost use Rattle.mt_frame.specs.FrameReading.{frame_reading, frames_reading};
ghost use Rattle.mt_frame.specs.Results.{GivesPayload, GivesFrames, AreFramesOf};

use crate::fault::{FrameError, FrameWhy};
use crate::frames::Frames;
use crate::header::payload_len;
use mt_defs::{Frame, HEADER_BYTES, MAX_PAYLOAD};
use mt_types::List;
use std::alloc::Global;

/// The frames of a whole file, or the first offset at which none stands.
pub fn frames_of(alloc: Global, file: &[u8]) -> Result<Frames, FrameError>
    ensures reads { GivesFrames result (frames_reading file.now) }
    ensures found { IfOk result (λ frames. AreFramesOf frames file.now) }
{
    let mut list = List::new(alloc);
    let mut offset = 0;
    while offset < file.len() {
        match payload_at(file, offset) {
            Ok(payload) => {
                list.push(Frame {
                    offset: offset as u64,
                    payload,
                })?;
                offset += (HEADER_BYTES as u64 + payload) as usize;
            }
            Err(why) => {
                let offset = offset as u64;
                return Err(FrameError::At { offset, why });
            }
        }
    }
    let end = offset as u64;
    Ok(Frames { list, end })
}

/// The length of the payload of the frame at an offset.
fn payload_at(file: &[u8], offset: usize) -> Result<u64, FrameWhy>
    requires { offset < length file.now }
    ensures gives { GivesPayload (drop offset file.now) result (frame_reading (drop offset file.now)) }
    ensures bounds { IfOk result (λ n. (1 ≤ n) × (n ≤ MAX_PAYLOAD) × (offset + (HEADER_BYTES + n) ≤ length file.now)) }
{
    let left = file.len() - offset;
    if left < HEADER_BYTES as usize {
        return Err(FrameWhy::Cut);
    }
    payload_len(header_at(file, offset), left as u64)
}

/// The header at an offset.
fn header_at(file: &[u8], offset: usize) -> &[u8]
    requires { offset + HEADER_BYTES ≤ length file.now }
    ensures { result.now ≡ take HEADER_BYTES (drop offset file.now) }
{
    &file[offset..offset + HEADER_BYTES as usize]
}
