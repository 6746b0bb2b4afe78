//! A sink in memory that takes bytes in pieces and fails chosen calls.

ghost use Rattle.std.specs.Prelude.{◌≡◌, ◌+◌, ◌++◌, ◌≤◌, ◌<◌, true, [], length, Some, IfOk, OnOk, OnErr, Ok, vec_len, vec_capacity};
ghost use Rattle.std.specs.Io.KnownBytes.{WriteAppends};
ghost use Rattle.plan_model.specs.Texts.Streams.{FaultsRose, MemSinkState, after_write, counted_up, write_result};

use super::numbered_calls::is_failing_call;
use crate::errors::{Failed, Memory};
use crate::sinks::Sink;
use std::alloc::Global;
use std::marker::Model;

/// A sink into memory with a fixed room, that takes at most so many bytes in one call, and fails the calls with the
/// given numbers, counted from 1 over the writes of at least one byte, and those that find the room full.
#[derive(Debug, Drop)]
pub struct MemSink {
    taken: Vec<u8>,
    room: usize,
    most: usize,
    fails: Vec<u32>,
    calls: u64,
    faults: u64,
}

impl Model for MemSink {
    ghost use Rattle.std.specs.Prelude.{◌≡◌, ◌≤◌, length, vec_capacity};
    ghost use Rattle.plan_model.specs.Texts.Streams.{MemSinkState};

    ghost Value = { MemSinkState };

    ghost view = { λ s. record { bytes = s.taken.items; room = s.room; most = s.most; fails = s.fails.items; calls = s.calls; faults = s.faults } };

    // the memory is that of the room, so no write may take more
    ghost invariant = { λ s. (length s.taken.items ≤ s.room) × (s.room ≡ vec_capacity s.taken) × (1 ≤ s.most) };
}

impl MemSink {
    /// An empty sink with room for `room` bytes, which takes at most `most` of them in one call; `most` is 1 or more. With a
    /// room of 0 each write of a byte fails. It takes all its memory here.
    ///
    /// # Errors
    ///
    /// `Memory` if out of memory for the room or for a copy of the numbers.
    pub fn new(alloc: Global, room: usize, most: usize, fails: &[u32]) -> Result<MemSink, Memory>
        requires { 1 ≤ most }
        ensures { IfOk result (λ sink. sink ≡ record { bytes = []; room = room; most = most; fails = fails.now; calls = 0; faults = 0 }) }
    {
        Ok(MemSink {
            taken: Vec::with_capacity(alloc, room)?,
            room,
            most,
            fails: Vec::from_slice(alloc, fails)?,
            calls: 0,
            faults: 0,
        })
    }

    /// The bytes taken so far. O(1); no memory.
    pub fn bytes(&self) -> &[u8]
        ensures { result.now ≡ self.now.bytes }
    {
        self.taken.as_slice()
    }
}

impl Sink for MemSink {
    ghost state = { λ s. record { bytes_taken = Some s.bytes; fault_count = s.faults; counts_failures_alone = true } };

    fn faults(&self) -> u64 {
        self.faults
    }

    fn write(&mut self, bytes: &[u8]) -> Result<usize, Failed>
        ensures bound { IfOk result (λ count. count ≤ length bytes.now) }
        ensures some { 0 < length bytes.now → IfOk result (λ count. 0 < count) }
        ensures bytes { WriteAppends (Some self.old.bytes) (Some self.new.bytes) result bytes.now }
        ensures failed { OnErr result (FaultsRose self.old.faults self.new.faults) }
        ensures later { self.old.faults ≤ self.new.faults }
        ensures no_fault { OnOk result (self.new.faults ≡ self.old.faults) }
        ensures one_fault { OnErr result (self.new.faults ≡ counted_up self.old.faults) }
        ensures empty { length bytes.now ≡ 0 → (result ≡ Ok 0) × (self.new.faults ≡ self.old.faults) }
        // which calls fail, and what is taken
        ensures answer { result ≡ write_result self.old bytes.now }
        ensures after { self.new ≡ after_write self.old bytes.now }
    {
        if bytes.is_empty() {
            return Ok(0);
        }
        self.calls = self.calls.saturating_add(1);
        if is_failing_call(&self.fails, self.calls) || self.room == self.taken.len() {
            self.faults = self.faults.saturating_add(1);
            return Err(Failed);
        }
        let count = bytes.len().min(self.most).min(self.room - self.taken.len());
        append_reserved(&mut self.taken, &bytes[..count]);
        Ok(count)
    }
}

/// Appends the bytes within the memory that the vector has.
fn append_reserved(taken: &mut Vec<u8>, bytes: &[u8])
    requires { vec_len taken.old + length bytes.now ≤ vec_capacity taken.old }
    ensures items { taken.new.items ≡ taken.old.items ++ bytes.now }
    ensures capacity { vec_capacity taken.new ≡ vec_capacity taken.old }
{
    for &byte in bytes {
        taken.push_reserved(byte);
    }
}
