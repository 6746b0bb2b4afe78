//! Gates: observers of the marks that workers handle.

/// An observer that is told when a worker begins a mark and when it has finished it. It returns nothing. It may block its worker; no other
/// worker waits for it. Tests use it to order the workers.
pub trait Gate: Sync {
    /// The worker has taken a mark, and is about to handle it; `turn` is the turn in that mark's record.
    fn before(&self, worker: u32, turn: u32);

    /// The worker has handled that mark, and its record is stored.
    fn after(&self, worker: u32, turn: u32);
}

/// The gate that does nothing.
#[derive(Clone, Copy, Debug)]
pub struct NoGate;

impl Gate for NoGate {
    fn before(&self, _worker: u32, _turn: u32) {}

    fn after(&self, _worker: u32, _turn: u32) {}
}
