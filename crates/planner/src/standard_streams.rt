//! Readers and writers of the library as a source and a sink. What is known of the bytes of a reader or a writer, is
//! known of the source or sink over it. Nothing is known of those of standard input and output, which are the edge of
//! what is proved.

ghost use Rattle.std.specs.Prelude.{◌≡◌, true, false};

use plan_model::{Failed, Sink, Source};
use std::io::{Read, Write};

/// A source over a reader, such as standard input. It reads as the reader does, and counts each error of the reader as a
/// fault, also an interrupted read.
#[derive(Drop)]
pub struct StdSource<R> {
    reader: R,
    faults: u64,
    ended: bool,
}

impl<R: Read> StdSource<R> {
    /// A source over a reader whose end was not given yet.
    pub fn new(reader: R) -> Self
        ensures open { (⟦<StdSource<R> as Source>⟧.state result).has_ended ≡ false }
        ensures faultless { (⟦<StdSource<R> as Source>⟧.state result).fault_count ≡ 0 }
        ensures bytes { (⟦<StdSource<R> as Source>⟧.state result).bytes_left ≡ R.remaining reader }
    {
        StdSource {
            reader,
            faults: 0,
            ended: false,
        }
    }
}

impl<R: Read> Source for StdSource<R> {
    ghost state = { λ s. record { bytes_left = R.remaining s.reader; has_ended = s.ended; fault_count = s.faults; counts_failures_alone = true } };

    fn faults(&self) -> u64 {
        self.faults
    }

    fn read(&mut self, into: &mut [u8]) -> Result<usize, Failed> {
        if into.is_empty() {
            return Ok(0);
        }
        match self.reader.read(into) {
            Ok(count) => {
                self.ended = self.ended || count == 0;
                Ok(count)
            }
            Err(_) => {
                self.faults = self.faults.saturating_add(1);
                Err(Failed)
            }
        }
    }
}

/// A sink over a writer, such as standard output. It writes as the writer does, and counts each error of the writer as a
/// fault, also a write that takes none of the bytes it is handed.
#[derive(Drop)]
pub struct StdSink<W> {
    writer: W,
    faults: u64,
}

impl<W: Write> StdSink<W> {
    /// A sink over a writer.
    pub fn new(writer: W) -> Self
        ensures faultless { (⟦<StdSink<W> as Sink>⟧.state result).fault_count ≡ 0 }
        ensures bytes { (⟦<StdSink<W> as Sink>⟧.state result).bytes_taken ≡ W.contents writer }
    {
        StdSink { writer, faults: 0 }
    }
}

impl<W: Write> Sink for StdSink<W> {
    ghost state = { λ s. record { bytes_taken = W.contents s.writer; fault_count = s.faults; counts_failures_alone = true } };

    fn faults(&self) -> u64 {
        self.faults
    }

    fn write(&mut self, bytes: &[u8]) -> Result<usize, Failed> {
        if bytes.is_empty() {
            return Ok(0);
        }
        match self.writer.write(bytes) {
            Ok(count) if count > 0 => Ok(count),
            _ => {
                self.faults = self.faults.saturating_add(1);
                Err(Failed)
            }
        }
    }
}
