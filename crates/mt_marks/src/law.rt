//! Laws of marks, for every file.

ghost use Rattle.std.specs.Prelude.{◌≡◌, ◌≤◌, ◌↔◌, ℕ, List, length, Ok, Some, option_map};
ghost use Rattle.mt_defs.specs.declared.mark.Mark.{Mark};
ghost use Rattle.mt_defs.specs.Frames.{IsFramed};
ghost use Rattle.mt_defs.specs.Lists.{AreBytes};
ghost use Rattle.mt_defs.specs.Marks.{MarksPosition, marks_bytes};
ghost use Rattle.mt_marks.specs.declared.marks.Marks.{Marks};
ghost use Rattle.mt_marks.specs.Entries.{AreMarks, Entry, HaveWords, entry_marks};
ghost use Rattle.mt_marks.specs.MarkReading.{entries_reading, marks_of};
ghost use Rattle.mt_marks.specs.Recut.{payload_reading, HasMark};

/// No mark has two positions.
pub fn marks_have_one_position()
    ensures { (file : List ℕ) (mark : Mark) (one other : ℕ)
        → MarksPosition file mark one → MarksPosition file mark other → one ≡ other }
{}

/// Frames may be cut anywhere without changing what is read: the same payload, of which each position
/// has a mark and no other has, so that a mark of one file has its like in each other.
pub fn frames_may_be_cut_anywhere()
    ensures read { (payload file : List ℕ) → IsFramed payload file → payload_reading file ≡ Ok payload }
    ensures positions { (payload file : List ℕ) → IsFramed payload file → (position : ℕ)
        → (position ≤ length payload) ↔ HasMark file position }
    ensures moved { (payload one other : List ℕ) → IsFramed payload one → IsFramed payload other
        → (mark : Mark) (position : ℕ) → MarksPosition one mark position → HasMark other position }
{}

/// The numbers that are read of bytes, as marks or as rows, are below 2^64.
pub fn read_marks_have_words()
    ensures { (per_granule : ℕ) (bytes : List ℕ) (entries : List Entry) → AreBytes bytes
        → entries_reading per_granule bytes ≡ Some entries → HaveWords (marks_of per_granule entries) }
{}

/// The marks that are read of a written file are those that were written.
pub fn written_marks_are_read()
    ensures { (marks : Marks) → AreMarks marks → HaveWords marks
        → option_map (marks_of marks.per_granule)
        (entries_reading marks.per_granule (marks_bytes (entry_marks marks) marks.rows)) ≡ Some marks }
{}
