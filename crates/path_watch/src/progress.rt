//! Who is told how far a session is.

/// An observer of a session that is watched. It returns nothing.
pub trait Progress {
    /// A session over so many marks (samples) begins, so many at a time.
    fn begins(&self, marks: u32, slice: u32);

    /// A slice of marks was handled, and no better path came of it.
    fn grows(&self);

    /// A better path came after so many marks, with this cost in 256ths of a lattice step. Its block is about to be written.
    fn finds(&self, marks: u32, cost: u64);

    /// The session gives nothing more. The last text is about to be written.
    fn ends(&self);
}

/// The observer that does nothing.
#[derive(Clone, Copy, Debug)]
pub struct NoProgress;

impl Progress for NoProgress {
    fn begins(&self, _marks: u32, _slice: u32) {}

    fn grows(&self) {}

    fn finds(&self, _marks: u32, _cost: u64) {}

    fn ends(&self) {}
}
