//! Where bytes come from.

ghost use Rattle.std.specs.Prelude.{◌≡◌, ◌≤◌, IsTrue, length, IfOk, OnOk, OnErr, Ok};
ghost use Rattle.std.specs.Io.KnownBytes.{Keeps, ReadConsumes};
ghost use Rattle.plan_model.specs.Texts.Streams.{SourceState, FaultsRose, counted_up, ended_after};

use crate::errors::Failed;

/// Bytes that are read one after another, with a count of the reads that failed.
pub trait Source {
    /// What is known of it: the bytes that are left, whether it has given its end, and its count of faults.
    ghost state: { Self → SourceState };

    /// How many reads have failed. The count never falls; at the greatest `u64` it stands still, and counts as risen.
    fn faults(&self) -> u64
        ensures { result ≡ (state self.now).fault_count };

    /// Moves the next bytes into the first places of the slice, and returns how many: one at least, or 0 at the end of
    /// the source, which is given by that and stays given. A read into an empty slice returns 0 and changes nothing.
    ///
    /// # Errors
    ///
    /// `Failed` only if the count of faults rose in this call. Then nothing is taken from the source and no end is given;
    /// what the slice holds is left open.
    fn read(&mut self, into: &mut [u8]) -> Result<usize, Failed>
        ensures bound { IfOk result (λ count. count ≤ length into.new) }
        ensures bytes { ReadConsumes (state self.old).bytes_left (state self.new).bytes_left result into.new }
        ensures end { IfOk result (λ count. (state self.new).has_ended ≡ ended_after (state self.old).has_ended (length into.old) count) }
        ensures no_end { OnErr result ((state self.new).has_ended ≡ (state self.old).has_ended) }
        ensures failed { OnErr result (FaultsRose (state self.old).fault_count (state self.new).fault_count) }
        ensures later { (state self.old).fault_count ≤ (state self.new).fault_count }
        ensures no_fault { IsTrue (state self.old).counts_failures_alone
            → OnOk result ((state self.new).fault_count ≡ (state self.old).fault_count) }
        ensures one_fault { IsTrue (state self.old).counts_failures_alone
            → OnErr result ((state self.new).fault_count ≡ counted_up (state self.old).fault_count) }
        ensures counting { (state self.new).counts_failures_alone ≡ (state self.old).counts_failures_alone }
        ensures empty { length into.old ≡ 0 → (result ≡ Ok 0) × Keeps (state self.old).bytes_left (state self.new).bytes_left
            × ((state self.new).fault_count ≡ (state self.old).fault_count) };
}
