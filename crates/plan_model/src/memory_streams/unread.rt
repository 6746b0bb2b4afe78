//! Bytes that are read from their start to their end.

ghost use Rattle.std.specs.Prelude.{◌≡◌, ◌++◌, length, min, take, drop, IfOk};

use crate::errors::Memory;
use std::alloc::Global;
use std::marker::Model;

/// Bytes of which a prefix was read; seen as those that are left.
#[derive(Debug, Drop)]
pub(super) struct Unread {
    bytes: Vec<u8>,
    read: usize,
}

impl Model for Unread {
    ghost use Rattle.std.specs.Prelude.{ℕ, ◌≤◌, List, length, drop};

    ghost Value = { List ℕ };

    ghost view = { λ s. drop s.read s.bytes.items };

    ghost invariant = { λ s. s.read ≤ length s.bytes.items };
}

impl Unread {
    /// A copy of these bytes, of which none was read.
    pub(super) fn new(alloc: Global, bytes: &[u8]) -> Result<Unread, Memory>
        ensures { IfOk result (λ unread. unread ≡ bytes.now) }
    {
        Ok(Unread {
            bytes: Vec::from_slice(alloc, bytes)?,
            read: 0,
        })
    }

    /// Moves the next bytes into the first places of the slice, as many as it has places and there are left.
    pub(super) fn move_into(&mut self, into: &mut [u8]) -> usize
        ensures count { result ≡ min (length into.old) (length self.old) }
        ensures left { self.new ≡ drop result self.old }
        ensures prefix { into.new ≡ take result self.old ++ drop result into.old }
    {
        let left = &self.bytes[self.read..];
        let count = left.len().min(into.len());
        into[..count].copy_from_slice(&left[..count]);
        self.read += count;
        count
    }
}
