//! What tests of workers share: a gate at which workers wait for one another, and counters.
#![tactic(auto)]

ghost use Rattle.std.specs.Prelude.{◌≡◌, IfOk, length};

use ld_work::Gate;
use std::alloc::{AllocError, Global};
use std::ops::Range;
use std::sync::atomic::{AtomicU64, Ordering};
use std::thread;

/// As many counters, each at 0.
pub fn zeros(alloc: Global, count: usize) -> Result<Vec<AtomicU64>, AllocError>
    ensures { IfOk result (λ counts. length counts.items ≡ count) }
{
    (0..count).map(|_| AtomicU64::new(0)).collect(alloc)
}

/// Counts passes, and holds those of some numbers until more came, for a while.
#[derive(Drop)]
pub struct Meeting {
    /// The passes of these numbers are held.
    held: Range<u64>,
    /// How many passes they wait for, themselves included.
    awaited: u64,
    /// How many passes came, of whichever worker and number.
    came: AtomicU64,
    /// How many held passes saw as many come.
    met: AtomicU64,
    by_worker: Vec<AtomicU64>,
}

impl Meeting {
    /// A gate that holds the passes of these numbers until `awaited` ones came, themselves included.
    pub fn new(alloc: Global, held: Range<u64>, awaited: u64) -> Result<Meeting, AllocError> {
        Ok(Meeting {
            held,
            awaited,
            came: AtomicU64::new(0),
            met: AtomicU64::new(0),
            by_worker: zeros(alloc, 16)?,
        })
    }

    /// How many held passes saw as many come.
    pub fn met(&self) -> u64 {
        self.met.load(Ordering::SeqCst)
    }

    /// How many passes came of each of sixteen workers.
    pub fn by_worker(&self) -> &[AtomicU64] {
        &self.by_worker
    }
}

impl Gate for Meeting {
    fn pass(&self, worker: u64, number: u64) {
        if let Some(count) = self.by_worker.get(worker as usize) {
            count.fetch_add(1, Ordering::SeqCst);
        }
        self.came.fetch_add(1, Ordering::SeqCst);
        if !self.held.contains(&number) {
            return;
        }
        for _ in 0..10_000_000u64 {
            if self.came.load(Ordering::SeqCst) >= self.awaited {
                self.met.fetch_add(1, Ordering::SeqCst);
                return;
            }
            thread::yield_now();
        }
        // Nobody else need wait for those that didn't come.
        self.came.fetch_add(self.awaited, Ordering::SeqCst);
    }
}
