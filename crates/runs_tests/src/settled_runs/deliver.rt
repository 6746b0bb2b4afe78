//! Texts written to sinks in memory, whole or up to a write that fails.

use crate::settled_runs::support::sure;
use plan_model::{Failed, MemSink, Sink};
use settle_report::deliver;
use std::process::Abort;

/// Asserts how the delivery of a text to a sink ends.
fn assert_delivery<R: Abort>(rt: &R, sink: &mut MemSink, text: &[u8], want: Result<(), Failed>) {
    assert!(rt; deliver(sink, text) == want);
}

/// Asserts what a sink has taken, and how many of its writes have failed. The sink ends here.
fn assert_taken<R: Abort>(rt: &R, sink: MemSink, bytes: &[u8], faults: u64) {
    assert!(rt; sink.bytes() == bytes);
    assert!(rt; sink.faults() == faults);
    drop(sink);
}

#[test]
fn delivers_in_pieces(rt: HostRuntime) {
    let mut sink = sure(&rt, MemSink::new(rt.alloc(), 20, 3, &[]));
    assert_delivery(&rt, &mut sink, b"no path\n", Ok(()));
    assert_delivery(&rt, &mut sink, b"", Ok(()));
    assert_delivery(&rt, &mut sink, b"nodes 1\n", Ok(()));
    assert_taken(&rt, sink, b"no path\nnodes 1\n", 0);
}

#[test]
fn ends_with_the_first_failed_write(rt: HostRuntime) {
    let mut sink = sure(&rt, MemSink::new(rt.alloc(), 20, 3, &[2]));
    assert_delivery(&rt, &mut sink, b"no path\n", Err(Failed));
    assert_taken(&rt, sink, b"no ", 1);
}

#[test]
fn fails_if_the_sink_is_full(rt: HostRuntime) {
    let mut sink = sure(&rt, MemSink::new(rt.alloc(), 5, 3, &[]));
    assert_delivery(&rt, &mut sink, b"no path\n", Err(Failed));
    assert_taken(&rt, sink, b"no pa", 1);
}

#[test]
fn fills_the_room_of_a_sink(rt: HostRuntime) {
    let mut sink = sure(&rt, MemSink::new(rt.alloc(), 8, 8, &[]));
    assert_delivery(&rt, &mut sink, b"no path\n", Ok(()));
    assert_taken(&rt, sink, b"no path\n", 0);
}
