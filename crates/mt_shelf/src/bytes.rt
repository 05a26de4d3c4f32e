//! Slices of bytes, with the facts that loops over them need.
ghost use Rattle.std.specs.Prelude.{IfOk, ◌≡◌, ◌<◌, ◌≤◌, ◌+◌, ◌-◌, length, take, drop};
ghost use Rattle.mt_shelf.specs.Bytes.{AreBytes, AllHoldBytes};

use mt_fault::FileBytes;
use mt_types::NoMemory;
use std::alloc::Global;

/// Copies the first bytes, at most `most`, and returns how many: at least one where there is one.
pub fn copy_some(from: &[u8], most: usize, into: &mut [u8]) -> usize
    requires most { 0 < most }
    requires room { 0 < length into.old }
    ensures within { result ≤ length from.now }
    ensures bound { result ≤ length into.new }
    ensures some { 0 < length from.now → 0 < result }
    ensures same { take result into.new ≡ take result from.now }
{
    let count = from.len().min(into.len()).min(most);
    into[..count].copy_from_slice(&from[..count]);
    count
}

/// The bytes from an offset on.
pub fn rest_from(bytes: &[u8], offset: usize) -> &[u8]
    requires { offset ≤ length bytes.now }
    ensures bytes { result.now ≡ drop offset bytes.now }
    ensures len { length result.now + offset ≡ length bytes.now }
{
    &bytes[offset..]
}

/// The bytes between two offsets.
pub fn subslice(bytes: &[u8], start: usize, end: usize) -> &[u8]
    requires order { start ≤ end }
    requires inside { end ≤ length bytes.now }
    ensures { result.now ≡ take (end - start) (drop start bytes.now) }
{
    &bytes[start..end]
}

/// A copy in a `Vec` of its own.
pub fn copy_bytes(alloc: Global, bytes: &[u8]) -> Result<Vec<u8>, NoMemory>
    ensures { IfOk result (λ copy. copy.items ≡ bytes.now) }
{
    Ok(bytes.to_vec(alloc)?)
}

/// Only reads the slice. The numbers in it are bytes, which its type says and that of a list does not.
pub fn know_bytes(bytes: &[u8])
    ensures { AreBytes bytes.now }
{}

/// Only reads the files. The numbers in them are bytes.
pub fn know_files(files: &[FileBytes])
    ensures { AllHoldBytes files.now }
{
    for file in files {
        know_bytes(file.bytes.as_slice());
    }
}
