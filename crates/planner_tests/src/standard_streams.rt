//! A source over a reader and a sink over a writer.

use crate::support::{expect_number, expect_that};
use plan_model::{Failed, Sink, Source};
use planner::{StdSink, StdSource};
use scene_text::{FetchFault, fetch};
use settle_report::deliver;
use std::alloc::Global;
use std::io;
use std::io::Read;
use std::process::Abort;

// A reader of these bytes whose second read fails.
#[derive(Drop)]
struct FailingReader<'a> {
    bytes: &'a [u8],
    reads: u32,
}

impl Read for FailingReader<'_> {
    fn read(&mut self, into: &mut [u8]) -> io::Result<usize> {
        self.reads = self.reads.saturating_add(1);
        if self.reads == 2 {
            return Err(io::Error::from(io::ErrorKind::Interrupted));
        }
        self.bytes.read(into)
    }
}

// What each read gives, and the faults so far.
static READS: [(Result<usize, Failed>, u64); 4] = [
    (Ok(4), 0),
    (Err(Failed), 1),
    (Ok(3), 1),
    (Ok(0), 1),
];

#[test]
fn source_counts_the_errors_of_its_reader(rt: HostRuntime) {
    let mut source = StdSource::new(FailingReader {
        bytes: b"prrt 1\n",
        reads: 0,
    });
    for (want, faults) in &READS {
        expect_that(&rt, source.read(&mut [0; 4]) == *want, "a read");
        expect_number(&rt, source.faults(), *faults, "faults");
    }
    drop(source);
}

#[test]
fn failed_read_is_reported(rt: HostRuntime) {
    let mut source = StdSource::new(FailingReader {
        bytes: b"prrt 1\n",
        reads: 0,
    });
    let fault = fetch(rt.alloc(), &mut source).err();
    expect_that(&rt, fault == Some(FetchFault::Read), "a failed read");
    expect_number(&rt, source.faults(), 1, "faults");
    drop(source);
}

// Whether a sink over a list takes these bytes and no others.
fn takes(alloc: Global, bytes: &[u8]) -> bool {
    let mut taken = Vec::new(alloc);
    let mut sink = StdSink::new(&mut taken);
    let all = deliver(&mut sink, bytes).is_ok();
    drop(sink);
    let same = taken.as_slice() == bytes;
    drop(taken);
    all && same
}

#[test]
fn bytes_pass_unchanged(rt: HostRuntime) -> Result<(), FetchFault> {
    let mut source = StdSource::new(b"prrt 1\n".as_slice());
    let text = fetch(rt.alloc(), &mut source)?;
    expect_that(&rt, text.as_slice() == b"prrt 1\n".as_slice(), "the source");
    expect_that(&rt, takes(rt.alloc(), &text), "the sink");
    Ok(())
}

// Compares what a write of these bytes gives, and the faults of the sink so far.
fn expect_write<R: Abort>(
    rt: &R,
    sink: &mut StdSink<&mut [u8]>,
    bytes: &[u8],
    want: Result<usize, Failed>,
    faults: u64,
) {
    expect_that(rt, sink.write(bytes) == want, "a write");
    expect_number(rt, sink.faults(), faults, "faults");
}

#[test]
fn sink_counts_a_full_writer_as_a_fault(rt: HostRuntime) {
    let mut room = [b'.'; 3];
    let mut sink = StdSink::new(room.as_mut_slice());
    expect_write(&rt, &mut sink, b"path", Ok(3), 0);
    expect_write(&rt, &mut sink, b"h", Err(Failed), 1);
    drop(sink);
    expect_that(&rt, room == *b"pat", "what is written");
}
