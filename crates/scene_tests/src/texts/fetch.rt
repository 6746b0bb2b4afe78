//! Sources that are read to their end, or to a fault.

ghost use Rattle.std.specs.Prelude.{◌≡◌, false};

use crate::texts::support::sure;
use plan_model::{MOST_TEXT_BYTES, MemSource, Source, SureSource};
use scene_text::{FetchFault, fetch};
use std::alloc::Global;
use std::process::Abort;

// Asserts that a fetch gives all bytes of a text.
fn assert_fetched<R: Abort>(rt: &R, alloc: Global, text: &str) {
    let mut source = sure(rt, SureSource::new(alloc, text.as_bytes()));
    let fetched = sure(rt, fetch(alloc, &mut source));
    drop(source);
    assert!(rt; fetched.as_slice() == text.as_bytes());
    drop(fetched);
}

#[test]
fn fetch_gives_the_bytes_of_a_source(rt: HostRuntime) {
    assert_fetched(&rt, rt.alloc(), "prrt 1\n");
    assert_fetched(&rt, rt.alloc(), "");
}

// How many bytes a fetch gives.
fn fetched_length(alloc: Global, source: &mut MemSource) -> Result<usize, FetchFault>
    requires { source.old.ended ≡ false }
{
    let text = fetch(alloc, source)?;
    let length = text.len();
    drop(text);
    Ok(length)
}

// A fetch from a source of so many bytes that come in pieces of 1,000, of which the read with this number fails.
struct Fetching {
    length: usize,
    failing: u32,
    // How many bytes it gives, and how many faults the source then counts.
    want: Result<usize, FetchFault>,
    faults: u64,
}

static FETCHES: [Fetching; 8] = [
    Fetching {
        length: 200_000,
        failing: 1,
        want: Err(FetchFault::Read),
        faults: 1,
    },
    Fetching {
        length: 200_000,
        failing: 2,
        want: Err(FetchFault::Read),
        faults: 1,
    },
    Fetching {
        length: 200_000,
        failing: 199,
        want: Err(FetchFault::Read),
        faults: 1,
    },
    Fetching {
        length: 200_000,
        failing: 200,
        want: Err(FetchFault::Read),
        faults: 1,
    },
    // the read that would give the end
    Fetching {
        length: 200_000,
        failing: 201,
        want: Err(FetchFault::Read),
        faults: 1,
    },
    Fetching {
        length: 200_000,
        failing: 202,
        want: Ok(200_000),
        faults: 0,
    },
    Fetching {
        length: MOST_TEXT_BYTES,
        failing: 0,
        want: Ok(MOST_TEXT_BYTES),
        faults: 0,
    },
    Fetching {
        length: MOST_TEXT_BYTES + 1,
        failing: 0,
        want: Err(FetchFault::TooLong),
        faults: 0,
    },
];

// Asserts what a fetch gives.
fn assert_fetches<R: Abort>(rt: &R, alloc: Global, fetching: &Fetching) {
    let bytes = sure(rt, vec![in alloc; b'#'; fetching.length]);
    let mut source = sure(
        rt,
        MemSource::new(alloc, &bytes, 1_000, &[fetching.failing]),
    );
    drop(bytes);
    let got = fetched_length(alloc, &mut source);
    let faults = source.faults();
    drop(source);
    assert!(rt; got == fetching.want);
    assert!(rt; faults == fetching.faults);
}

#[test]
fn fetch_stops_at_a_fault(rt: HostRuntime) {
    for fetching in &FETCHES {
        assert_fetches(&rt, rt.alloc(), fetching);
    }
}
