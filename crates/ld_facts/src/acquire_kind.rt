//! The ways of taking a lock.
ghost use Rattle.std.specs.Prelude.{◌≡◌};
ghost use Rattle.ld_class.specs.Names.{plain_class};
ghost use Rattle.ld_trace.specs.Events.{plain_lock};
ghost use Rattle.ld_facts.specs.Inner.Scan.{class_taken, waits};

use ld_class::ClassName;
use ld_trace::Lock;

/// How a lock is taken.
#[derive(Clone, Copy)]
pub enum AcquireKind {
    /// The task may have waited.
    Waiting,
    /// It took the lock only because that was free.
    Trying,
    /// The task may have waited, for a lock of this subclass of its class.
    Nesting(u8),
}

impl AcquireKind {
    /// Whether the task may have waited.
    pub(crate) fn waits(self) -> bool
        ensures { result ≡ waits self }
    {
        match self {
            AcquireKind::Waiting | AcquireKind::Nesting(_) => true,
            AcquireKind::Trying => false,
        }
    }

    /// The class by which the lock is taken.
    pub(crate) fn class_of<'a>(self, lock: Lock<'a>) -> ClassName<'a>
        ensures { plain_class result ≡ class_taken self (plain_lock lock.entry) }
    {
        let sub = match self {
            AcquireKind::Waiting | AcquireKind::Trying => 0,
            AcquireKind::Nesting(sub) => sub,
        };
        ClassName {
            name: lock.class,
            sub,
        }
    }
}
