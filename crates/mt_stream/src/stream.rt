//! A data file that is read from the front: one frame is held, and none is read twice.

ghost use Rattle.std.specs.Prelude.{◌≡◌, ◌<◌, ◌≤◌, ◌+◌, ◌-◌, ℕ, max, List as Seq, [], ◌++◌, length, take, drop, OnOk, IsTrue};
ghost use Rattle.mt_shelf.specs.Paths.{is_path};
ghost use Rattle.mt_shelf.specs.State.{files_of, ReadsUpTo};
ghost use Rattle.mt_frame.specs.FrameReading.{frame_reading};
ghost use Rattle.mt_shelf_frame.specs.Taking.{KnownBytes, IsFrameAt, frame_len};
ghost use Rattle.mt_stream.specs.Held.{HoldsItsFrame, IsBehind, IsUnread, HasStreamCause, AppendFails, HoldFails};
ghost use Rattle.mt_stream.specs.Reading.{Shows, PaysOk, Pays, StaysOnFrames, IsGood};

use crate::error::StreamError;
use mt_defs::Mark;
use mt_shelf::Shelf;
use mt_shelf_frame::read_frame;
use mt_types::List;
use std::alloc::Global;

/// A data file and the frame that is held of it: none where `end` is 0.
#[derive(Debug, Drop)]
pub struct FrameStream {
    /// The file's size in bytes.
    size: u64,
    /// Where the frame that is held begins, in bytes.
    start: u64,
    /// Where it ends.
    end: u64,
    /// Its payload.
    held: List<u8>,
}

impl FrameStream {
    /// A file of so many bytes, of which nothing is held.
    pub fn new(alloc: Global, size: u64) -> FrameStream
        ensures size { result.size ≡ size }
        ensures end { result.end ≡ 0 }
    {
        FrameStream {
            size,
            start: 0,
            end: 0,
            held: List::new(alloc),
        }
    }

    /// Appends the payload between two marks. No frame is read twice, nor one before the frame held;
    /// after an error nothing more is to be read.
    pub fn read<F: Shelf>(
        &mut self,
        alloc: Global,
        shelf: &mut F,
        path: &str,
        begins: Mark,
        ends: Mark,
        into: &mut Vec<u8>,
    ) -> Result<(), StreamError>
        requires path { IsTrue (is_path path.now) }
        requires size { KnownBytes (files_of (F.state shelf.old)) path.now (λ bytes. length bytes ≡ self.old.size) }
        requires held { KnownBytes (files_of (F.state shelf.old)) path.now (λ bytes. HoldsItsFrame self.old bytes) }
        ensures shows { OnOk result (KnownBytes (files_of (F.state shelf.old)) path.now
            (λ bytes. Shows begins ends bytes into.old.items into.new.items)) }
        ensures pays { OnOk result (KnownBytes (files_of (F.state shelf.old)) path.now
            (λ bytes. PaysOk begins ends bytes self.old self.new (F.state shelf.old) (F.state shelf.new))) }
        ensures most { KnownBytes (files_of (F.state shelf.old)) path.now
            (λ bytes. Pays begins ends bytes self.old (F.state shelf.old) (F.state shelf.new)) }
        ensures held { OnOk result (KnownBytes (files_of (F.state shelf.old)) path.now (λ bytes. HoldsItsFrame self.new bytes)) }
        ensures on_frames { OnOk result (KnownBytes (files_of (F.state shelf.old)) path.now
            (λ bytes. StaysOnFrames begins bytes self.old self.new)) }
        ensures behind { OnOk result (IsBehind self.old begins.offset → IsBehind self.new ends.offset) }
        ensures good { KnownBytes (files_of (F.state shelf.old)) path.now (λ bytes. IsGood begins ends bytes self.old result) }
        ensures size { self.new.size ≡ self.old.size }
        ensures reads { ReadsUpTo (self.old.size - self.old.end) (F.state shelf.old) (F.state shelf.new) }
        ensures cause { HasStreamCause (F.faults shelf.old) (F.faults shelf.new) result }
    {
        let mut at = begins.offset;
        let mut skip = begins.inner;
        while at < ends.offset {
            self.hold(alloc, shelf, path, at)?;
            let held = self.held.as_slice();
            append(held, skip, held.len() as u64, into)?;
            at = self.end;
            skip = 0;
        }
        if at != ends.offset {
            return Err(StreamError::Place);
        }
        if ends.inner > 0 {
            self.hold(alloc, shelf, path, at)?;
            append(self.held.as_slice(), skip, ends.inner, into)?;
        }
        Ok(())
    }

    /// Holds the frame at an offset: reads it where it isn't held, and never one below the end of the
    /// frame held.
    fn hold<F: Shelf>(
        &mut self,
        alloc: Global,
        shelf: &mut F,
        path: &str,
        at: u64,
    ) -> Result<(), StreamError>
        requires path { IsTrue (is_path path.now) }
        requires size { KnownBytes (files_of (F.state shelf.old)) path.now (λ bytes. length bytes ≡ self.old.size) }
        requires held { KnownBytes (files_of (F.state shelf.old)) path.now (λ bytes. HoldsItsFrame self.old bytes) }
        ensures stands { OnOk result (KnownBytes (files_of (F.state shelf.old)) path.now
            (λ bytes. IsFrameAt at self.new.end self.new.held (frame_reading (drop at bytes)))) }
        ensures start { OnOk result (self.new.start ≡ at) }
        ensures after { OnOk result (at < self.new.end) }
        ensures size { self.new.size ≡ self.old.size }
        ensures unread { at < self.old.end → IsUnread self.old self.new (F.state shelf.old) (F.state shelf.new) }
        ensures past { self.old.size ≤ at → IsUnread self.old self.new (F.state shelf.old) (F.state shelf.new) }
        ensures most { KnownBytes (files_of (F.state shelf.old)) path.now
            (λ bytes. ReadsUpTo (frame_len (frame_reading (drop at bytes))) (F.state shelf.old) (F.state shelf.new)) }
        ensures taken { OnOk result (ReadsUpTo (self.new.end - self.old.end) (F.state shelf.old) (F.state shelf.new)) }
        ensures climbs { OnOk result (self.old.end ≤ self.new.end) }
        ensures within { OnOk result (self.new.end ≤ max self.old.size self.old.end) }
        ensures reads { ReadsUpTo (self.old.size - self.old.end) (F.state shelf.old) (F.state shelf.new) }
        ensures fails { KnownBytes (files_of (F.state shelf.old)) path.now
            (λ bytes. HoldFails self.old at (frame_reading (drop at bytes)) result) }
        ensures cause { HasStreamCause (F.faults shelf.old) (F.faults shelf.new) result }
    {
        if at < self.end {
            if at == self.start {
                return Ok(());
            }
            return Err(StreamError::Place);
        }
        if at >= self.size {
            return Err(StreamError::Place);
        }
        match read_frame(alloc, shelf, path, self.size, at, &mut self.held) {
            Ok(end) => {
                self.start = at;
                self.end = end;
                Ok(())
            }
            Err(error) => {
                self.end = 0;
                Err(StreamError::from(error))
            }
        }
    }
}

/// Appends the bytes of a payload between two offsets.
fn append(payload: &[u8], from: u64, to: u64, into: &mut Vec<u8>) -> Result<(), StreamError>
    ensures ok { OnOk result (into.new.items ≡ into.old.items ++ drop from (take to payload.now)) }
    ensures order { OnOk result (to ≤ length payload.now) }
    ensures from { OnOk result (from ≤ to) }
    ensures fails { AppendFails from to (length payload.now) result }
    ensures cause { (n : ℕ) → HasStreamCause n n result }
{
    if from > to {
        return Err(StreamError::Place);
    }
    if to > payload.len() as u64 {
        return Err(StreamError::Place);
    }
    into.extend_from_slice(piece(payload, from as usize, to as usize))?;
    Ok(())
}

/// The bytes of a payload between two offsets.
fn piece(payload: &[u8], from: usize, to: usize) -> &[u8]
    requires order { from ≤ to }
    requires within { to ≤ length payload.now }
    ensures { result.now ≡ drop from (take to payload.now) }
{
    &payload[from..to]
}
