//! Sources and sinks in memory, that move bytes in pieces and fail chosen calls.

use plan_model::{Failed, MemSink, MemSource, Sink, Source, SureSource};
use std::process::Abort;
use std::test::Fail;

/// Asserts one read of a source into a piece of three bytes: these come.
fn assert_piece(rt: &impl Abort, source: &mut SureSource, want: &str) {
    let mut piece = [0; 3];
    let count = source.read(&mut piece).unwrap_or(0);
    assert!(rt; &piece[..count] == want.as_bytes());
}

#[test]
fn reads_in_pieces(rt: HostRuntime) -> Result<(), Fail> {
    let mut source = SureSource::new(rt.alloc(), b"prrt 1\n")?;
    assert_piece(&rt, &mut source, "prr");
    assert_piece(&rt, &mut source, "t 1");
    assert_piece(&rt, &mut source, "\n");
    assert_piece(&rt, &mut source, "");
    assert!(rt; source.read(&mut []) == Ok(0));
    assert!(rt; source.faults() == 0);
    drop(source);
    Ok(())
}

/// What a read is to answer, and what is to stand in its piece of four bytes after it.
type Reading = (Result<usize, Failed>, &'static str);

/// Asserts one read of a source, after one into nothing, which does not count.
fn assert_read(rt: &impl Abort, source: &mut MemSource, (want, bytes): Reading) {
    assert!(rt; source.read(&mut []) == Ok(0));
    let mut piece = *b"....";
    let got = source.read(&mut piece);
    assert!(rt; got == want, "before {bytes}");
    assert!(rt; piece.as_slice() == bytes.as_bytes());
}

/// Asserts the first reads of a source of seven bytes, and how many of them failed.
fn assert_reads(rt: &impl Abort, mut source: MemSource, readings: &[Reading], faults: u64) {
    for reading in readings {
        assert_read(rt, &mut source, *reading);
    }
    assert!(rt; source.faults() == faults);
    drop(source);
}

#[test]
fn gives_as_its_numbers_say(rt: HostRuntime) -> Result<(), Fail> {
    let source = MemSource::new(rt.alloc(), b"abcdefg", 9, &[0, 7])?;
    let readings = [(Ok(4), "abcd"), (Ok(3), "efg."), (Ok(0), "....")];
    assert_reads(&rt, source, &readings, 0);
    Ok(())
}

#[test]
fn fails_a_read_between_two(rt: HostRuntime) -> Result<(), Fail> {
    let source = MemSource::new(rt.alloc(), b"abcdefg", 3, &[5, 2])?;
    let readings = [(Ok(3), "abc."), (Err(Failed), "...."), (Ok(3), "def.")];
    assert_reads(&rt, source, &readings, 1);
    Ok(())
}

#[test]
fn fails_the_first_two_reads(rt: HostRuntime) -> Result<(), Fail> {
    let source = MemSource::new(rt.alloc(), b"abcdefg", 1, &[2, 1])?;
    let readings = [
        (Err(Failed), "...."),
        (Err(Failed), "...."),
        (Ok(1), "a..."),
    ];
    assert_reads(&rt, source, &readings, 2);
    Ok(())
}

/// Asserts one write to a sink.
fn assert_write(rt: &impl Abort, sink: &mut MemSink, bytes: &str, want: Result<usize, Failed>) {
    let got = sink.write(bytes.as_bytes());
    assert!(rt; got == want, "of {bytes}");
}

/// Writes to a sink of seven bytes that fails its second and its fifth call, and what each is to answer.
static WRITES: [(&str, Result<usize, Failed>); 7] = [
    ("abcd", Ok(3)),
    ("de", Err(Failed)),
    ("", Ok(0)),
    ("de", Ok(2)),
    ("fghi", Ok(2)),
    ("hi", Err(Failed)),
    ("hi", Err(Failed)),
];

#[test]
fn takes_as_its_numbers_say(rt: HostRuntime) -> Result<(), Fail> {
    let mut sink = MemSink::new(rt.alloc(), 7, 3, &[2, 5])?;
    for (bytes, want) in &WRITES {
        assert_write(&rt, &mut sink, bytes, *want);
    }
    assert!(rt; sink.bytes() == b"abcdefg".as_slice());
    assert!(rt; sink.faults() == 3);
    drop(sink);
    Ok(())
}
