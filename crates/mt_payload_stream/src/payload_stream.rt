//! A data file on a shelf, with the marks of its payloads.

ghost use Rattle.std.specs.Prelude.{◌≡◌};
ghost use Rattle.mt_marks.specs.Entries.{AreMarks};

use mt_marks::Marks;
use mt_stream::FrameStream;
use std::alloc::Global;

/// A data file whose payloads are read in the order of its marks, some of them or all (docs/FORMAT.md, "Marks";
/// ClickHouse: `MergeTreeReaderStream`). The marks are those that stand in the marks file, whether they keep the
/// rules or not.
#[derive(Drop)]
pub struct PayloadStream {
    /// The entries of the marks file.
    pub(crate) marks: Marks,
    /// The data file, as far as it was read.
    pub(crate) file: FrameStream,
    ghost complete: { AreMarks marks },
}

impl PayloadStream {
    /// A data file of so many bytes, of which nothing is read yet.
    pub fn new(alloc: Global, size: u64, marks: Marks) -> PayloadStream
        requires { AreMarks marks }
        ensures size { result.file.size ≡ size }
        ensures marks { result.marks ≡ marks }
        ensures nothing { result.file.end ≡ 0 }
    {
        PayloadStream {
            marks,
            file: FrameStream::new(alloc, size),
        }
    }
}
