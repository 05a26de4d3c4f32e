//! Reading to the end: an input as a whole, and a file of a shelf.
ghost use Rattle.std.specs.Prelude.{◌≡◌, ◌<◌, ◌≤◌, ◌^◌, ◌+◌, take, drop, length, IfOk, OnOk, OnErr, IfSome, IsTrue, Some};
ghost use Rattle.std.specs.Option.{option_map};
ghost use Rattle.std.specs.FinMap.{get};
ghost use Rattle.mt_shelf.specs.Causes.{HasCause};
ghost use Rattle.mt_shelf.specs.Paths.{is_path};
ghost use Rattle.mt_shelf.specs.Files.{IsOffsetIn, IsSliceOf};
ghost use Rattle.mt_shelf.specs.State.{files_of, after_read, ReadsUpTo};
ghost use Rattle.mt_shelf.specs.Streams.{IsInput};

use crate::{CallError, Shelf, Source};
use mt_types::List;
use std::alloc::Global;

/// How many bytes one read asks a source for.
const READ_BYTES: usize = 65536;

/// What a source had left.
#[derive(Drop)]
pub enum Input {
    /// All of it.
    Whole(List<u8>),
    /// More bytes than the limit.
    TooLong,
}

/// Reads a source to its end, or until it gave more than `limit` bytes.
pub fn read_all<S: Source>(alloc: Global, source: &mut S, limit: usize) -> Result<Input, CallError>
    requires { limit < 2 ^ 62 }
    ensures input { IfOk result (IsInput limit (S.left source.old) (S.left source.new)) }
    ensures cause { HasCause (S.faults source.old) (S.faults source.new) result }
{
    let mut buffer = vec![in alloc; 0u8; READ_BYTES]?;
    read_to_end(alloc, source, &mut buffer, limit)
}

// Reads by way of a buffer.
fn read_to_end<S: Source>(
    alloc: Global,
    source: &mut S,
    buffer: &mut [u8],
    limit: usize,
) -> Result<Input, CallError>
    requires room { 0 < length buffer.old }
    requires limit { limit < 2 ^ 62 }
    ensures input { IfOk result (IsInput limit (S.left source.old) (S.left source.new)) }
    ensures cause { HasCause (S.faults source.old) (S.faults source.new) result }
{
    let mut text = Vec::new(alloc);
    while text.len() <= limit {
        let count = source.read(buffer)?;
        if count == 0 {
            return Ok(Input::Whole(List::of(text)));
        }
        text.extend_from_slice(&buffer[..count])?;
    }
    Ok(Input::TooLong)
}

/// Reads a whole file of a known size, however little each read gives.
pub fn read_file<F: Shelf>(
    alloc: Global,
    shelf: &mut F,
    path: &str,
    size: u64,
) -> Result<List<u8>, CallError>
    requires path { IsTrue (is_path path.now) }
    requires size { IfSome (files_of (F.state shelf.old)) (λ files. option_map length (get files path.now) ≡ Some size) }
    ensures known { IfOk result (λ bytes. IfSome (files_of (F.state shelf.old)) (λ files. get files path.now ≡ Some bytes)) }
    ensures len { IfOk result (λ bytes. length bytes ≡ size) }
    ensures state { OnOk result (F.state shelf.new ≡ after_read size (F.state shelf.old)) }
    ensures err { OnErr result (ReadsUpTo size (F.state shelf.old) (F.state shelf.new)) }
    ensures cause { HasCause (F.faults shelf.old) (F.faults shelf.new) result }
{
    let mut bytes = vec![in alloc; 0u8; size as usize]?;
    fill_from(shelf, path, &mut bytes)?;
    Ok(List::of(bytes))
}

// Fills a buffer of a file's size with the file.
fn fill_from<F: Shelf>(shelf: &mut F, path: &str, bytes: &mut [u8]) -> Result<(), CallError>
    requires path { IsTrue (is_path path.now) }
    requires size { IfSome (files_of (F.state shelf.old)) (λ files. option_map length (get files path.now) ≡ Some (length bytes.old)) }
    ensures known { OnOk result (IfSome (files_of (F.state shelf.old)) (λ files. get files path.now ≡ Some bytes.new)) }
    ensures state { OnOk result (F.state shelf.new ≡ after_read (length bytes.old) (F.state shelf.old)) }
    ensures len { length bytes.new ≡ length bytes.old }
    ensures err { OnErr result (ReadsUpTo (length bytes.old) (F.state shelf.old) (F.state shelf.new)) }
    ensures cause { HasCause (F.faults shelf.old) (F.faults shelf.new) result }
{
    let mut at = 0;
    while at < bytes.len() {
        at += read_into(shelf, path, at, bytes)?;
    }
    Ok(())
}

// Reads once, from an offset of the file to the same of the buffer.
fn read_into<F: Shelf>(
    shelf: &mut F,
    path: &str,
    at: usize,
    bytes: &mut [u8],
) -> Result<usize, CallError>
    requires path { IsTrue (is_path path.now) }
    requires inside { at < length bytes.old }
    requires there { IfSome (files_of (F.state shelf.old)) (λ files. IsOffsetIn files path.now at) }
    ensures some { IfOk result (λ n. 0 < n) }
    ensures bound { IfOk result (λ n. at + n ≤ length bytes.new) }
    ensures known { IfOk result (λ n. IfSome (files_of (F.state shelf.old)) (λ files. IfSome (get files path.now) (λ file. IsSliceOf file at (take n (drop at bytes.new))))) }
    ensures prefix { take at bytes.new ≡ take at bytes.old }
    ensures len { length bytes.new ≡ length bytes.old }
    ensures state { IfOk result (λ n. F.state shelf.new ≡ after_read n (F.state shelf.old)) }
    ensures err { OnErr result (F.state shelf.new ≡ F.state shelf.old) }
    ensures cause { HasCause (F.faults shelf.old) (F.faults shelf.new) result }
{
    shelf.read(path, at as u64, &mut bytes[at..])
}
