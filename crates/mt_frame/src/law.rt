//! Laws of frames, for every file.

ghost use Rattle.std.specs.Prelude.{◌≡◌, ◌↔◌, ℕ, List, Ok};
ghost use Rattle.mt_defs.specs.Lists.{AreBytes};
ghost use Rattle.mt_defs.specs.Frames.{Block, IsFileOf, IsFramed};
ghost use Rattle.mt_defs.specs.WrittenFrames.{written_frames};
ghost use Rattle.mt_frame.specs.FrameReading.{frames_reading};

/// A file is frames of one payload at most, wherever its frames are cut.
pub fn framed_bytes_have_one_payload()
    ensures { (file one other : List ℕ) → IsFramed one file → IsFramed other file → one ≡ other }
{}

/// The frames that are read of a file are those of which it is made, and no others.
pub fn frames_are_read_exactly()
    ensures { (file : List ℕ) (blocks : List Block) → AreBytes file
        → (frames_reading file ≡ Ok blocks) ↔ IsFileOf blocks file }
{}

/// The writer's frames of a payload, which `put_frames` appends, are frames of this payload.
pub fn written_frames_have_their_payload()
    ensures { (payload : List ℕ) → AreBytes payload → IsFramed payload (written_frames payload) }
{}
