//! Reading the payload of a mark.

ghost use Rattle.std.specs.Prelude.{◌≡◌, ◌<◌, ◌+◌, ◌-◌, length, IsTrue, OnOk};
ghost use Rattle.mt_shelf.specs.Paths.{is_path};
ghost use Rattle.mt_shelf.specs.State.{files_of, ReadsUpTo};
ghost use Rattle.mt_shelf_frame.specs.Taking.{KnownBytes};
ghost use Rattle.mt_stream.specs.Held.{HasStreamCause, HoldsItsFrame};
ghost use Rattle.mt_stream.specs.Reading.{Pays, PaysOk};
ghost use Rattle.mt_granules.specs.PayloadReading.{mark_count};
ghost use Rattle.mt_payload_stream.specs.MarkedFiles.{indexed_mark, AppendsPayload, FindsNoFault, StaysReady};

use crate::payload_stream::PayloadStream;
use mt_shelf::Shelf;
use mt_stream::StreamError;
use std::alloc::Global;

impl PayloadStream {
    /// Appends the payload of a mark, by the mark's index in the order of the file. Payloads are to be read in that
    /// order; after an error nothing more is to be read.
    pub fn read<F: Shelf>(
        &mut self,
        alloc: Global,
        shelf: &mut F,
        path: &str,
        index: usize,
        into: &mut Vec<u8>,
    ) -> Result<(), StreamError>
        requires path { IsTrue (is_path path.now) }
        requires index { index < mark_count self.old.marks }
        requires size { KnownBytes (files_of (F.state shelf.old)) path.now (λ bytes. length bytes ≡ self.old.file.size) }
        requires held { KnownBytes (files_of (F.state shelf.old)) path.now (λ bytes. HoldsItsFrame self.old.file bytes) }
        ensures shows { OnOk result (KnownBytes (files_of (F.state shelf.old)) path.now
            (λ bytes. AppendsPayload self.old.marks index into.old.items into.new.items bytes)) }
        ensures pays { OnOk result (KnownBytes (files_of (F.state shelf.old)) path.now
            (λ bytes. PaysOk (indexed_mark self.old.marks index) (indexed_mark self.old.marks (index + 1)) bytes
            self.old.file self.new.file (F.state shelf.old) (F.state shelf.new))) }
        ensures most { KnownBytes (files_of (F.state shelf.old)) path.now
            (λ bytes. Pays (indexed_mark self.old.marks index) (indexed_mark self.old.marks (index + 1)) bytes
            self.old.file (F.state shelf.old) (F.state shelf.new)) }
        ensures held { OnOk result (KnownBytes (files_of (F.state shelf.old)) path.now
            (λ bytes. HoldsItsFrame self.new.file bytes)) }
        ensures good { KnownBytes (files_of (F.state shelf.old)) path.now
            (λ bytes. FindsNoFault self.old index result bytes) }
        ensures ready { OnOk result (KnownBytes (files_of (F.state shelf.old)) path.now
            (λ bytes. StaysReady self.old self.new index bytes)) }
        ensures marks { self.new.marks ≡ self.old.marks }
        ensures size { self.new.file.size ≡ self.old.file.size }
        ensures reads { ReadsUpTo (self.old.file.size - self.old.file.end) (F.state shelf.old) (F.state shelf.new) }
        ensures cause { HasStreamCause (F.faults shelf.old) (F.faults shelf.new) result }
    {
        let places = self.marks.places.as_slice();
        let begins = places[index];
        let ends = places[index + 1];
        self.file.read(alloc, shelf, path, begins, ends, into)
    }
}
