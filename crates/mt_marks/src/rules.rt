//! The rules that marks keep: offsets and positions never fall, from the start to the end.

ghost use Rattle.std.specs.Prelude.{◌≡◌};
ghost use Rattle.mt_marks.specs.MarkReading.{payload_len, mark_reading};

use crate::position::resolve;
use mt_defs::{HEADER_BYTES, Mark};
use mt_fault::Why;
use mt_frame::Frames;

/// A mark that keeps the rules, and its position.
#[derive(Clone, Copy)]
pub struct Former {
    /// The mark's offset in the data file, in bytes.
    pub offset: u64,
    /// The position in the uncompressed data, in bytes.
    pub position: u64,
}

/// The mark with its position, or the first rule that it breaks, after the mark before it; `last` in an
/// entry for the end, which a skip index has not.
#[tactic(auto, unfolding(crate::specs::MarkReading::mark_reading))]
pub fn check_mark(
    frames: &Frames,
    last: bool,
    former: Option<Former>,
    mark: &Mark,
) -> Result<Former, Why>
    ensures { result ≡ mark_reading frames.now.end frames.now.list last former mark.now }
{
    let before = former.unwrap_or(Former {
        offset: 0,
        position: 0,
    });
    if mark.offset < before.offset {
        return Err(Why::Order);
    }
    let Some(position) = resolve(frames, mark) else {
        return Err(Why::Place);
    };
    if former.is_none() && position != 0 {
        return Err(Why::Place);
    }
    if last && position != payload_len(frames) {
        return Err(Why::Place);
    }
    if position < before.position {
        return Err(Why::Order);
    }
    Ok(Former {
        offset: mark.offset,
        position,
    })
}

/// The uncompressed length of a file: what is left of it without the headers.
fn payload_len(frames: &Frames) -> u64
    ensures { result ≡ payload_len frames.now.list }
{
    let end = frames.end;
    end - HEADER_BYTES as u64 * frames.list.len() as u64
}
