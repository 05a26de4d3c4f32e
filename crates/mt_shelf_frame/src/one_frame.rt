//! Reading one frame of a file on a shelf: its header, and then its payload in one piece.

ghost use Rattle.std.specs.Prelude.{◌≡◌, ◌<◌, ◌≤◌, ◌+◌, ◌-◌, ◌^◌, [], length, take, drop, IfOk, OnOk, OnErr, IsTrue};
ghost use Rattle.mt_shelf.specs.Causes.{HasCause};
ghost use Rattle.mt_shelf.specs.Paths.{is_path};
ghost use Rattle.mt_shelf.specs.State.{files_of, after_read, ReadsUpTo};
ghost use Rattle.mt_frame.specs.FrameReading.{frame_reading};
ghost use Rattle.mt_shelf_frame.specs.Taking.{KnownBytes, GivesFrame, HasFrameCause, IsAfter, frame_len};

use crate::error::ReadFrameError;
use mt_defs::{HEADER_BYTES, MAX_PAYLOAD};
use mt_frame::{FrameWhy, payload_len};
use mt_shelf::{CallError, Shelf};
use mt_types::List;
use std::alloc::Global;

/// Replaces `into` by the payload of the frame at an offset of a file of `size` bytes, and returns the
/// offset after the frame. After any error `into` is empty.
pub fn read_frame<F: Shelf>(
    alloc: Global,
    shelf: &mut F,
    path: &str,
    size: u64,
    at: u64,
    into: &mut List<u8>,
) -> Result<u64, ReadFrameError>
    requires path { IsTrue (is_path path.now) }
    requires at { at < size }
    requires size { KnownBytes (files_of (F.state shelf.old)) path.now (λ bytes. length bytes ≡ size) }

    ensures reads { KnownBytes (files_of (F.state shelf.old)) path.now
        (λ bytes. GivesFrame at result into.new (frame_reading (drop at bytes))) }
    ensures after { IfOk result (λ end. IsAfter at size end into.new) }
    ensures emptied { OnErr result (into.new ≡ []) }

    ensures taken { IfOk result (λ end. F.state shelf.new ≡ after_read (end - at) (F.state shelf.old)) }
    ensures most { KnownBytes (files_of (F.state shelf.old)) path.now
        (λ bytes. ReadsUpTo (frame_len (frame_reading (drop at bytes))) (F.state shelf.old) (F.state shelf.new)) }
    ensures limit { ReadsUpTo (size - at) (F.state shelf.old) (F.state shelf.new) }
    ensures cause { HasFrameCause (F.faults shelf.old) (F.faults shelf.new) result }
{
    *into = List::new(alloc);
    let left = size - at;
    if left < HEADER_BYTES as u64 {
        return Err(ReadFrameError::At {
            offset: at,
            why: FrameWhy::Cut,
        });
    }
    let mut header = [0u8; HEADER_BYTES as usize];
    fill(shelf, path, at, &mut header)?;
    match payload_len(&header, left) {
        Err(why) => Err(ReadFrameError::At { offset: at, why }),
        Ok(payload) => {
            let bytes = read_bytes(alloc, shelf, path, at + HEADER_BYTES as u64, payload)?;
            *into = bytes;
            Ok(at + HEADER_BYTES as u64 + payload)
        }
    }
}

/// So many bytes of a file from an offset on.
fn read_bytes<F: Shelf>(
    alloc: Global,
    shelf: &mut F,
    path: &str,
    at: u64,
    count: u64,
) -> Result<List<u8>, CallError>
    requires path { IsTrue (is_path path.now) }
    requires small { at + count < 2 ^ 64 }
    requires most { count ≤ MAX_PAYLOAD }
    requires there { KnownBytes (files_of (F.state shelf.old)) path.now (λ bytes. at + count ≤ length bytes) }
    ensures len { IfOk result (λ list. length list ≡ count) }
    ensures known { IfOk result (λ list. KnownBytes (files_of (F.state shelf.old)) path.now (λ bytes. list ≡ take count (drop at bytes))) }
    ensures state { IfOk result (λ list. F.state shelf.new ≡ after_read count (F.state shelf.old)) }
    ensures most { ReadsUpTo count (F.state shelf.old) (F.state shelf.new) }
    ensures cause { HasCause (F.faults shelf.old) (F.faults shelf.new) result }
{
    let mut bytes = vec![in alloc; 0u8; count as usize]?;
    fill(shelf, path, at, &mut bytes)?;
    Ok(List::of(bytes))
}

/// Fills a buffer with a file's bytes from an offset on, and takes no others.
fn fill<F: Shelf>(shelf: &mut F, path: &str, at: u64, into: &mut [u8]) -> Result<(), CallError>
    requires path { IsTrue (is_path path.now) }
    requires small { at + length into.old < 2 ^ 64 }
    requires there { KnownBytes (files_of (F.state shelf.old)) path.now (λ bytes. at + length into.old ≤ length bytes) }
    ensures known { OnOk result (KnownBytes (files_of (F.state shelf.old)) path.now (λ bytes. into.new ≡ take (length into.old) (drop at bytes))) }
    ensures state { OnOk result (F.state shelf.new ≡ after_read (length into.old) (F.state shelf.old)) }
    ensures most { ReadsUpTo (length into.old) (F.state shelf.old) (F.state shelf.new) }
    ensures cause { HasCause (F.faults shelf.old) (F.faults shelf.new) result }
{
    let mut done = 0;
    while done < into.len() {
        done += read_after(shelf, path, at + done as u64, into, done)?;
    }
    Ok(())
}

/// Reads once into a buffer, after the bytes that are there.
fn read_after<F: Shelf>(
    shelf: &mut F,
    path: &str,
    at: u64,
    into: &mut [u8],
    done: usize,
) -> Result<usize, CallError>
    requires path { IsTrue (is_path path.now) }
    requires room { done < length into.old }
    requires there { KnownBytes (files_of (F.state shelf.old)) path.now (λ bytes. at < length bytes) }
    ensures some { IfOk result (λ n. 0 < n) }
    ensures bound { IfOk result (λ n. done + n ≤ length into.new) }
    ensures prefix { take done into.new ≡ take done into.old }
    ensures known { IfOk result (λ n. KnownBytes (files_of (F.state shelf.old)) path.now (λ bytes. take n (drop done into.new) ≡ take n (drop at bytes))) }
    ensures state { IfOk result (λ n. F.state shelf.new ≡ after_read n (F.state shelf.old)) }
    ensures err { OnErr result (F.state shelf.new ≡ F.state shelf.old) }
    ensures cause { HasCause (F.faults shelf.old) (F.faults shelf.new) result }
{
    shelf.read(path, at, &mut into[done..])
}
