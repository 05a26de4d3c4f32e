//! Sources and sinks over std's readers and writers. Their content isn't known to a proof.
ghost use Rattle.std.specs.Prelude.{◌≡◌, None};

use crate::fault_count::FaultCount;
use crate::retry::{read_some, write_some};
use mt_shelf::{CallError, Failed, Sink, Source};
use std::io::{Read, Write};

/// A source over a reader, as standard input.
#[derive(Drop)]
pub struct StdSource<R> {
    reader: R,
    count: FaultCount,
}

impl<R: Read> StdSource<R> {
    /// Nothing was read yet.
    pub fn new(reader: R) -> StdSource<R>
        ensures { ⟦<StdSource<R> as Source>⟧.faults result ≡ 0 }
    {
        StdSource {
            reader,
            count: FaultCount::new(),
        }
    }
}

impl<R: Read> Source for StdSource<R> {
    ghost left = { λ _. None };

    ghost faults = { λ s. s.count.faults };

    ghost bytes = { λ _. tt };

    fn read(&mut self, into: &mut [u8]) -> Result<usize, Failed> {
        match read_some(&mut self.reader, into) {
            Ok(count) => Ok(count),
            Err(_) => {
                self.count.rise();
                Err(Failed)
            }
        }
    }
}

/// A sink over a writer, as standard output.
#[derive(Drop)]
pub struct StdSink<W> {
    writer: W,
    count: FaultCount,
}

impl<W: Write> StdSink<W> {
    /// Nothing was written yet.
    pub fn new(writer: W) -> StdSink<W>
        ensures { ⟦<StdSink<W> as Sink>⟧.faults result ≡ 0 }
    {
        StdSink {
            writer,
            count: FaultCount::new(),
        }
    }
}

impl<W: Write> Sink for StdSink<W> {
    ghost written = { λ _. None };

    ghost faults = { λ s. s.count.faults };

    fn write(&mut self, bytes: &[u8]) -> Result<usize, CallError> {
        match write_some(&mut self.writer, bytes) {
            Ok(count) => Ok(count),
            Err(error) => Err(self.count.cause_of(&error)),
        }
    }
}
