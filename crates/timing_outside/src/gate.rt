//! Gates, at which a test can hold threads.

use std::sync::Wait;

/// A gate: a place at which a thread can be held, so that a test can make threads overlap.
pub trait Gate: Sync {
    /// Lets the thread with this number pass, at once or later. The caller chooses the numbers. Not
    /// guaranteed: that the call returns. It may wait for other threads.
    fn meet<R: Wait>(&self, rt: &R, who: u64);
}

/// A gate that is always open. Each thread passes at once.
#[derive(Clone, Copy, Debug)]
pub struct NoGate;

impl Gate for NoGate {
    fn meet<R: Wait>(&self, _rt: &R, _who: u64) {}
}
