//! The status line: how far the session is, on a terminal.

use path_watch::Progress;
use std::cell::Cell;
use std::io;
use std::io::IsTerminal;
use std::time::{Duration, Instant};

/// A better path costs so many times a lattice step.
const COST_UNIT: u64 = 256;

/// A line on standard error, if that is a terminal. It is written over at most once a second, and taken away before anything is written
/// to standard output. A write that fails is passed over.
#[derive(Drop)]
pub struct StatusLine {
    rt: HostRuntime,
    is_terminal: bool,
    begun: Option<Instant>,
    /// When the line was last written.
    shown: Cell<Option<Instant>>,
    /// Whether it stands now.
    stands: Cell<bool>,
    marks: Cell<u32>,
    slice: Cell<u32>,
    handled: Cell<u32>,
    cost: Cell<Option<u64>>,
}

impl StatusLine {
    /// A line that is not written yet. The time is counted from now on.
    pub fn new(rt: HostRuntime) -> StatusLine {
        let begun = Instant::now(&rt).ok();
        StatusLine {
            rt,
            is_terminal: rt.stderr().is_terminal(),
            begun,
            shown: Cell::new(begun),
            stands: Cell::new(false),
            marks: Cell::new(0),
            slice: Cell::new(0),
            handled: Cell::new(0),
            cost: Cell::new(None),
        }
    }

    /// Writes the line if a second has passed since it was written last.
    fn show_in_time(&self) -> io::Result<()> {
        let now = Instant::now(&self.rt)?;
        if let (Some(begun), Some(shown)) = (self.begun, self.shown.get())
            && now.duration_since(shown) >= Duration::from_secs(1)
        {
            self.shown.set(Some(now));
            self.stands.set(true);
            self.show(now.duration_since(begun))?;
        }
        Ok(())
    }

    /// Writes the line over what stands in its place.
    fn show(&self, time: Duration) -> io::Result<()> {
        let (handled, marks) = (self.handled.get(), self.marks.get());
        let millis = time.as_millis();
        let seconds = time.as_secs();
        let rate = u128::from(handled) * 1000 / millis.max(1);
        match self.cost.get() {
            Some(cost) => {
                let steps = cost / COST_UNIT;
                eprint!(self.rt;
                    "\r\x1b[K{handled} of {marks} marks, best {steps} steps, {seconds} s, {rate} marks a second"
                )
            }
            None => {
                eprint!(self.rt;
                    "\r\x1b[K{handled} of {marks} marks, no path, {seconds} s, {rate} marks a second"
                )
            }
        }
    }

    /// Takes the line away.
    fn clear(&self) -> io::Result<()> {
        if self.stands.get() {
            self.stands.set(false);
            eprint!(self.rt; "\r\x1b[K")?;
        }
        Ok(())
    }
}

impl Progress for StatusLine {
    fn begins(&self, marks: u32, slice: u32) {
        self.marks.set(marks);
        self.slice.set(slice);
    }

    fn grows(&self) {
        let handled = self.handled.get().saturating_add(self.slice.get());
        self.handled.set(handled.min(self.marks.get()));
        if self.is_terminal {
            let _shown = self.show_in_time();
        }
    }

    fn finds(&self, marks: u32, cost: u64) {
        self.handled.set(marks);
        self.cost.set(Some(cost));
        let _cleared = self.clear();
    }

    fn ends(&self) {
        let _cleared = self.clear();
    }
}
