//! The frames of a whole file.

ghost use Rattle.std.specs.Prelude.{IsTrue};
ghost use Rattle.mt_frame.specs.EndToEnd.{lie_end_to_end};

use mt_defs::Frame;
use mt_types::List;

/// The frames of a file, one after another from its start to its end.
#[derive(Drop)]
pub struct Frames {
    /// The frames in the file's order, with payloads from 1 to `MAX_PAYLOAD` bytes.
    pub list: List<Frame>,
    /// The file's length, in bytes.
    pub end: u64,
    pub ghost end_to_end: { IsTrue (lie_end_to_end 0 list end) },
}
