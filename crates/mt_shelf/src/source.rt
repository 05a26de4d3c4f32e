//! Sources in memory.
ghost use Rattle.std.specs.Prelude.{◌≡◌, ◌<◌, ◌≤◌, ◌++◌, Some, length, take, drop, ℕ, ◌^◌};
ghost use Rattle.mt_shelf.specs.Bytes.{AreBytes};
ghost use Rattle.std.specs.Io.KnownBytes.{prepend_known, IsAtEnd};

use crate::bytes::{copy_some, know_bytes};
use crate::failures::Failures;
use crate::{Failed, Source};
use mt_types::List;

/// Bytes in memory, which never fail.
#[derive(Drop)]
pub struct SureSource {
    bytes: List<u8>,
    at: usize,
    most: usize,
    ghost inside: { at ≤ length bytes },
    ghost some: { 0 < most },
    ghost are_bytes: { AreBytes bytes },
}

impl SureSource {
    /// A read gives at most `most` bytes.
    pub fn new(bytes: List<u8>, most: usize) -> SureSource
        requires { 0 < most }
        ensures left { ⟦<SureSource as Source>⟧.left result ≡ Some bytes }
        ensures faults { ⟦<SureSource as Source>⟧.faults result ≡ 0 }
    {
        know_bytes(bytes.as_slice());
        SureSource { bytes, at: 0, most }
    }

    /// The bytes that are not yet read.
    pub fn rest(&self) -> &[u8]
        ensures { Some result.now ≡ ⟦<SureSource as Source>⟧.left self.now }
    {
        self.left_bytes()
    }

    fn left_bytes(&self) -> &[u8]
        ensures left { result.now ≡ drop self.now.at self.now.bytes }
        ensures fits { length self.now.bytes < 2 ^ 64 }
    {
        &self.bytes.as_slice()[self.at..]
    }

    fn give(&mut self, into: &mut [u8]) -> usize
        requires { 0 < length into.old }
        ensures bound { result ≤ length into.new }
        ensures gives { ⟦<SureSource as Source>⟧.left self.old ≡ prepend_known (take result into.new) (⟦<SureSource as Source>⟧.left self.new) }
        ensures end { result ≡ 0 → IsAtEnd (⟦<SureSource as Source>⟧.left self.old) }
    {
        let count = copy_some(self.left_bytes(), self.most, into);
        self.at += count;
        count
    }
}

impl Source for SureSource {
    ghost use Rattle.std.specs.Prelude.{Some, drop, ◌<◌};
    ghost use Rattle.std.proofs.lemmas.List.Elements.{All-drop};

    ghost left = { λ s. Some (drop s.at s.bytes) };

    ghost faults = { λ _. 0 };

    ghost bytes = { λ s. All-drop (λ byte. byte < 256) s.at s.bytes s.are_bytes };

    fn read(&mut self, into: &mut [u8]) -> Result<usize, Failed> {
        Ok(self.give(into))
    }
}

/// Bytes in memory, where the calls fail that are to.
#[derive(Drop)]
pub struct MemSource {
    source: SureSource,
    failures: Failures,
}

impl MemSource {
    /// `failing` numbers the calls that fail, from 1; a read gives at most `most` bytes.
    pub fn new(bytes: List<u8>, failing: List<u64>, most: usize) -> MemSource
        requires { 0 < most }
        ensures left { ⟦<MemSource as Source>⟧.left result ≡ Some bytes }
        ensures faults { ⟦<MemSource as Source>⟧.faults result ≡ 0 }
    {
        MemSource {
            source: SureSource::new(bytes, most),
            failures: Failures::new(failing),
        }
    }

    /// The bytes that are not yet read.
    pub fn rest(&self) -> &[u8]
        ensures { Some result.now ≡ ⟦<MemSource as Source>⟧.left self.now }
    {
        self.source.rest()
    }
}

impl Source for MemSource {
    ghost use Rattle.std.specs.Prelude.{◌<◌};
    ghost use Rattle.std.proofs.lemmas.List.Elements.{All-drop};

    ghost left = { λ s. ⟦<SureSource as Source>⟧.left s.source };

    ghost faults = { λ s. s.failures.faults };

    ghost bytes = { λ s. All-drop (λ byte. byte < 256) s.source.at s.source.bytes s.source.are_bytes };

    fn read(&mut self, into: &mut [u8]) -> Result<usize, Failed> {
        if self.failures.fails_next() {
            return Err(Failed);
        }
        Ok(self.source.give(into))
    }
}
