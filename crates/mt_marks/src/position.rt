//! The position that a mark denotes.

ghost use Rattle.std.specs.Prelude.{◌≡◌, ◌<◌, ◌↔◌, ℕ, List as Seq, length, slice_index, slice_get, Some, ◌-◌, ◌*◌, ◌≤◌};
ghost use Rattle.mt_defs.specs.Marks.{MarksPosition};
ghost use Rattle.mt_frame.specs.Results.{AreFramesOf};
ghost use Rattle.mt_marks.specs.Positions.{position_of, frames_before, offsets_of};

use mt_defs::{Frame, HEADER_BYTES, Mark};
use mt_frame::Frames;

/// The position in the uncompressed data that a mark denotes, in bytes; none where it denotes none.
pub fn resolve(frames: &Frames, mark: &Mark) -> Option<u64>
    ensures found { result ≡ position_of frames.now mark.now }
    ensures denotes { (file : Seq ℕ) → AreFramesOf frames.now file → (position : ℕ)
        → (result ≡ Some position) ↔ MarksPosition file mark.now position }
{
    position(frames, mark)
}

/// Before a frame stand the headers of all frames before it and their payloads, so its offset and its
/// index give its position.
fn position(frames: &Frames, mark: &Mark) -> Option<u64>
    ensures { result ≡ position_of frames.now mark.now }
{
    let end = frames.end;
    let index = count_before(frames, mark.offset);
    match frame_at(frames, index) {
        Some(frame) if frame.offset == mark.offset => {
            if mark.inner > frame.payload {
                return None;
            }
            Some(without_headers(mark.offset, index) + mark.inner)
        }
        Some(_) => None,
        None => {
            if mark.offset != end || mark.inner != 0 {
                return None;
            }
            Some(without_headers(mark.offset, index))
        }
    }
}

fn frame_at(frames: &Frames, index: usize) -> Option<Frame>
    ensures { result ≡ slice_get frames.now.list index }
{
    frames.list.as_slice().get(index).copied()
}

/// An offset without the headers of so many frames before it.
fn without_headers(offset: u64, frames: usize) -> u64
    requires { HEADER_BYTES * frames ≤ offset }
    ensures { result ≡ offset - HEADER_BYTES * frames }
{
    offset - HEADER_BYTES as u64 * frames as u64
}

/// How many frames begin before an offset: a search by halves.
fn count_before(frames: &Frames, offset: u64) -> usize
    ensures { result ≡ frames_before offset frames.now.list }
{
    let list = frames.list.as_slice();
    let mut low = 0;
    let mut high = list.len();
    while low < high {
        let middle = low + (high - low) / 2;
        if offset_at(list, middle) < offset {
            low = middle + 1;
        } else {
            high = middle;
        }
    }
    low
}

fn offset_at(list: &[Frame], index: usize) -> u64
    requires { index < length list.now }
    ensures { result ≡ slice_index (offsets_of list.now) index }
{
    list[index].offset
}
