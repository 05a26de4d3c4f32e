//! A data file and the marks that cut it.

ghost use Rattle.std.specs.Prelude.{◌≡◌, Ok, None};
ghost use Rattle.mt_defs.specs.Lists.{AreBytes};
ghost use Rattle.mt_marks.specs.Entries.{AreMarks, entries_of};
ghost use Rattle.mt_marks.specs.MarkReading.{rules_reading};
ghost use Rattle.mt_granules.specs.PayloadReading.{frames_in};

use mt_frame::Frames;
use mt_marks::Marks;
use mt_types::List;

/// The payloads of granules in a data file, which its marks cut. Only the frames' headers and the marks are
/// read; a payload is read when it is asked for.
#[derive(Drop)]
pub struct Payloads<'a> {
    /// The data file.
    pub(crate) file: &'a [u8],
    /// Where its frames lie.
    pub(crate) frames: Frames,
    /// The marks of all granules, and of the end.
    pub(crate) marks: Marks,
    ghost bytes: { AreBytes file.now },
    ghost framed: { frames_in file.now ≡ Ok frames },
    ghost ruled: { rules_reading frames 0 0 None (entries_of marks) ≡ Ok tt },
    ghost complete: { AreMarks marks },
}

/// The bytes of a payload.
#[derive(Drop)]
pub enum Payload<'a> {
    /// A slice of the data file, where the payload lies in one frame.
    InFile(&'a [u8]),
    /// A copy, where it spans frames.
    Joined(List<u8>),
}
