//! A source in memory that gives its bytes in pieces and fails chosen calls.

ghost use Rattle.std.specs.Prelude.{◌≡◌, ◌≤◌, ◌<◌, ◌^◌, true, false, length, Some, IfOk, OnOk, OnErr, Ok};
ghost use Rattle.std.specs.Io.KnownBytes.{Keeps, ReadConsumes};
ghost use Rattle.plan_model.specs.Texts.Streams.{FaultsRose, MemSourceState, after_read, counted_up, ended_after, read_into, read_result};

use super::numbered_calls::is_failing_call;
use super::unread::Unread;
use crate::errors::{Failed, Memory};
use crate::sources::Source;
use std::alloc::Global;
use std::marker::Model;

/// A source of bytes in memory that gives at most so many of them in one call, and fails the calls with the given
/// numbers, counted from 1 over the reads into a slice that is not empty.
#[derive(Debug, Drop)]
pub struct MemSource {
    unread: Unread,
    ended: bool,
    most: usize,
    fails: Vec<u32>,
    calls: u64,
    faults: u64,
}

impl Model for MemSource {
    ghost use Rattle.std.specs.Prelude.{◌≤◌, ◌<◌, ◌^◌};
    ghost use Rattle.plan_model.specs.Texts.Streams.{MemSourceState};

    ghost Value = { MemSourceState };

    ghost view = { λ s. record { left = s.unread; ended = s.ended; most = s.most; fails = s.fails.items; calls = s.calls; faults = s.faults } };

    // a call that fails has one of the numbers, so the count of faults stays far from its last value
    ghost invariant = { λ s. (1 ≤ s.most) × (s.faults ≤ s.calls) × (s.faults < 2 ^ 32) };
}

impl MemSource {
    /// A source of these bytes, of which nothing was read. It gives at most `most` of them in one call, which is 1 or more, and
    /// fails the calls whose numbers are in `fails`; calls are numbered from 1, so 0 there fails none. O(n) for n bytes.
    ///
    /// # Errors
    ///
    /// `Memory` if out of memory for a copy of the bytes or of the numbers.
    pub fn new(alloc: Global, bytes: &[u8], most: usize, fails: &[u32]) -> Result<MemSource, Memory>
        requires { 1 ≤ most }
        ensures { IfOk result (λ source. source ≡ record { left = bytes.now; ended = false; most = most; fails = fails.now; calls = 0; faults = 0 }) }
    {
        Ok(MemSource {
            unread: Unread::new(alloc, bytes)?,
            ended: false,
            most,
            fails: Vec::from_slice(alloc, fails)?,
            calls: 0,
            faults: 0,
        })
    }
}

impl Source for MemSource {
    ghost state = { λ s. record { bytes_left = Some s.left; has_ended = s.ended; fault_count = s.faults; counts_failures_alone = true } };

    fn faults(&self) -> u64
        ensures value { result ≡ self.now.faults }
        // the count never reaches its last value
        ensures few { result < 2 ^ 32 }
    {
        self.faults
    }

    fn read(&mut self, into: &mut [u8]) -> Result<usize, Failed>
        ensures bound { IfOk result (λ count. count ≤ length into.new) }
        ensures bytes { ReadConsumes (Some self.old.left) (Some self.new.left) result into.new }
        ensures end { IfOk result (λ count. self.new.ended ≡ ended_after self.old.ended (length into.old) count) }
        ensures no_end { OnErr result (self.new.ended ≡ self.old.ended) }
        ensures failed { OnErr result (FaultsRose self.old.faults self.new.faults) }
        ensures later { self.old.faults ≤ self.new.faults }
        ensures no_fault { OnOk result (self.new.faults ≡ self.old.faults) }
        ensures one_fault { OnErr result (self.new.faults ≡ counted_up self.old.faults) }
        ensures empty { length into.old ≡ 0 → (result ≡ Ok 0) × Keeps (Some self.old.left) (Some self.new.left)
            × (self.new.faults ≡ self.old.faults) }
        // which calls fail, and what is moved
        ensures answer { result ≡ read_result self.old (length into.old) }
        ensures after { self.new ≡ after_read self.old (length into.old) }
        ensures slice { into.new ≡ read_into self.old into.old }
    {
        if into.is_empty() {
            return Ok(0);
        }
        self.calls = self.calls.saturating_add(1);
        if is_failing_call(&self.fails, self.calls) {
            self.faults = self.faults.saturating_add(1);
            return Err(Failed);
        }
        let most = self.most.min(into.len());
        let count = self.unread.move_into(&mut into[..most]);
        if count == 0 {
            self.ended = true;
        }
        Ok(count)
    }
}
