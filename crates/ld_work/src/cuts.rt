//! Traces that come while workers read those before.
use crate::told::{BYTES, length_of};
use ld_trace::Source;
use std::alloc::{AllocError, Global};
use std::collections::VecDeque;
use std::mem;
use std::sync::{Condvar, Mutex, Wait};

/// What waits for a worker.
#[derive(Drop)]
struct Waiting<'a> {
    cuts: VecDeque<Vec<Source<'a>>>,
    /// No more come.
    is_ended: bool,
}

/// Traces that wait for a worker, some at a time, in the order in which they came.
///
/// A proof knows nothing of what comes out: who needs it compares the book with the traces at the end.
#[derive(Drop)]
pub struct Cuts<'a> {
    waiting: Mutex<Waiting<'a>>,
    changed: Condvar,
}

impl<'a> Cuts<'a> {
    /// None has come. Takes no memory.
    pub fn new(alloc: Global) -> Cuts<'a> {
        Cuts {
            waiting: Mutex::new(Waiting {
                cuts: VecDeque::new(alloc),
                is_ended: false,
            }),
            changed: Condvar::new(),
        }
    }

    /// Lets workers take these traces, as many together as have 65,536 bytes. Waits only for the lock.
    ///
    /// # Errors
    ///
    /// `AllocError` if memory was refused. No worker gets the last of them then.
    pub fn put<R: Wait>(
        &self,
        rt: &R,
        alloc: Global,
        traces: &[Source<'a>],
    ) -> Result<(), AllocError> {
        let mut cut = Vec::new(alloc);
        let mut bytes = 0usize;
        for source in traces {
            cut.push(*source)?;
            bytes = bytes.saturating_add(length_of(source));
            if bytes >= BYTES {
                self.put_one(rt, mem::replace(&mut cut, Vec::new(alloc)))?;
                bytes = 0;
            }
        }
        if cut.is_empty() {
            return Ok(());
        }
        self.put_one(rt, cut)
    }

    fn put_one<R: Wait>(&self, rt: &R, cut: Vec<Source<'a>>) -> Result<(), AllocError> {
        self.waiting.lock(rt).cuts.push_back(cut)?;
        self.changed.notify_one();
        Ok(())
    }

    /// No more come: workers that wait wait no longer. Waits only for the lock, and takes no memory.
    pub fn end<R: Wait>(&self, rt: &R) {
        self.waiting.lock(rt).is_ended = true;
        self.changed.notify_all();
    }

    /// The next traces, for which this waits. `None` if no more come.
    pub(crate) fn next<R: Wait>(&self, rt: &R) -> Option<Vec<Source<'a>>> {
        let lock = self.waiting.lock(rt);
        let mut waiting = self.changed.wait_while(rt, lock, |waiting| {
            waiting.cuts.is_empty() && !waiting.is_ended
        });
        waiting.cuts.pop_front()
    }
}
