//! A source in memory that never fails.

ghost use Rattle.std.specs.Prelude.{◌≡◌, ◌++◌, true, false, length, min, Some, take, drop, IfOk, Ok};
ghost use Rattle.plan_model.specs.Texts.Streams.{Stream, ended_after};

use super::unread::Unread;
use crate::errors::{Failed, Memory};
use crate::sources::Source;
use std::alloc::Global;
use std::marker::Model;

/// A source of bytes in memory that never fails, and gives as many of them as a slice has places for.
#[derive(Debug, Drop)]
pub struct SureSource {
    unread: Unread,
    ended: bool,
}

impl Model for SureSource {
    ghost use Rattle.plan_model.specs.Texts.Streams.{Stream};

    ghost Value = { Stream };

    ghost view = { λ s. record { left = s.unread; ended = s.ended } };
}

impl SureSource {
    /// A source of these bytes; of none, the first read gives the end. O(n) for n bytes.
    ///
    /// # Errors
    ///
    /// `Memory` if out of memory for a copy of the bytes.
    pub fn new(alloc: Global, bytes: &[u8]) -> Result<SureSource, Memory>
        ensures { IfOk result (λ source. source ≡ record { left = bytes.now; ended = false }) }
    {
        Ok(SureSource {
            unread: Unread::new(alloc, bytes)?,
            ended: false,
        })
    }
}

impl Source for SureSource {
    ghost state = { λ s. record { bytes_left = Some s.left; has_ended = s.ended; fault_count = 0; counts_failures_alone = true } };

    fn faults(&self) -> u64 {
        0
    }

    fn read(&mut self, into: &mut [u8]) -> Result<usize, Failed>
        // how many are moved, what is left, and what the slice then holds
        ensures answer { result ≡ Ok (min (length into.old) (length self.old.left)) }
        ensures after { IfOk result (λ count. self.new
            ≡ record { left = drop count self.old.left; ended = ended_after self.old.ended (length into.old) count }) }
        ensures slice { IfOk result (λ count. into.new ≡ take count self.old.left ++ drop count into.old) }
    {
        let count = self.unread.move_into(into);
        if count == 0 && !into.is_empty() {
            self.ended = true;
        }
        Ok(count)
    }
}
