//! Where bytes go.

ghost use Rattle.std.specs.Prelude.{◌≡◌, ◌≤◌, ◌<◌, IsTrue, length, IfOk, OnOk, OnErr, Ok};
ghost use Rattle.std.specs.Io.KnownBytes.{WriteAppends};
ghost use Rattle.plan_model.specs.Texts.Streams.{SinkState, FaultsRose, counted_up};

use crate::errors::Failed;

/// Bytes that are written one after another, with a count of the writes that failed.
pub trait Sink {
    /// What is known of it: the bytes taken so far, and its count of faults.
    ghost state: { Self → SinkState };

    /// How many writes have failed. The count never falls; at the greatest `u64` it stands still, and counts as risen.
    fn faults(&self) -> u64
        ensures { result ≡ (state self.now).fault_count };

    /// Takes a prefix of the bytes, one at least, and returns how many. A write of no bytes takes none and changes nothing.
    ///
    /// # Errors
    ///
    /// `Failed` only if the count of faults rose in this call. Then nothing is taken.
    fn write(&mut self, bytes: &[u8]) -> Result<usize, Failed>
        ensures bound { IfOk result (λ count. count ≤ length bytes.now) }
        ensures some { 0 < length bytes.now → IfOk result (λ count. 0 < count) }
        ensures bytes { WriteAppends (state self.old).bytes_taken (state self.new).bytes_taken result bytes.now }
        ensures failed { OnErr result (FaultsRose (state self.old).fault_count (state self.new).fault_count) }
        ensures later { (state self.old).fault_count ≤ (state self.new).fault_count }
        ensures no_fault { IsTrue (state self.old).counts_failures_alone
            → OnOk result ((state self.new).fault_count ≡ (state self.old).fault_count) }
        ensures one_fault { IsTrue (state self.old).counts_failures_alone
            → OnErr result ((state self.new).fault_count ≡ counted_up (state self.old).fault_count) }
        ensures counting { (state self.new).counts_failures_alone ≡ (state self.old).counts_failures_alone }
        ensures empty { length bytes.now ≡ 0 → (result ≡ Ok 0) × ((state self.new).fault_count ≡ (state self.old).fault_count) };
}
