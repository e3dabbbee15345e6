//! A place to hold workers at, or to watch them.

/// What each worker calls before it reads a trace. A gate is shared by all workers.
pub trait Gate {
    /// Told by this worker that it is about to read the trace of this number. It may wait, and must
    /// return, also where no other worker comes: where threads can't be started, workers do their work
    /// one after another.
    fn pass(&self, worker: u64, number: u64);
}

/// A gate that does nothing.
#[derive(Clone, Copy, Debug, PartialEq, Eq)]
pub struct NoGate;

impl Gate for NoGate {
    fn pass(&self, _worker: u64, _number: u64) {}
}
