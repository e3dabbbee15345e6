//! What an event of a kernel's ring says of locks, interrupts and processors.

/// Which handlers run where an event is recorded, and which interrupts are disabled there. With both
/// handlers the hardware interrupt's runs over the softirq's.
#[derive(Clone, Copy, Debug, PartialEq, Eq)]
pub struct Context {
    /// Hardware interrupts are disabled.
    pub hard_off: bool,
    /// Softirqs are disabled.
    pub soft_off: bool,
    /// The handler of a hardware interrupt runs.
    pub in_hard: bool,
    /// The handler of a softirq runs.
    pub in_soft: bool,
    /// The handler of an NMI runs.
    pub in_nmi: bool,
}

/// Where and when an event was recorded.
#[derive(Clone, Copy, Debug, PartialEq, Eq)]
pub struct Place {
    /// The task's number (PID); 0 is the idle task of its processor.
    pub task: i32,
    /// The number of the processor.
    pub processor: usize,
    /// As the kernel's clock counts.
    pub time: u64,
    pub context: Context,
}

/// How a lock is acquired.
#[derive(Clone, Copy, Debug, PartialEq, Eq)]
pub enum Mode {
    /// For writing, by one task alone.
    Writer,
    /// By a reader that waits for waiting writers.
    Reader,
    /// By a reader that doesn't, and may read what its task reads already.
    Recursive,
}

/// A lock is acquired, as the recorder's module tells it.
#[derive(Clone, Copy, Debug, PartialEq, Eq)]
pub struct Acquire<'a> {
    /// The lock's address.
    pub lock: u64,
    /// The address that stands for its class; 0 if the lock's own does.
    pub key: u64,
    /// The address of a lock under which many of the class may be held; 0 without one.
    pub nest: u64,
    /// An address in the function that acquires it.
    pub caller: u64,
    pub subclass: u8,
    /// The task doesn't wait for it.
    pub is_trylock: bool,
    /// Lockdep checks it.
    pub is_checked: bool,
    pub mode: Mode,
    /// How many locks lockdep has of the task before this one; `None` if it has stopped, or an older module
    /// doesn't tell.
    pub held: Option<u8>,
    /// The lock's name, as the kernel has it.
    pub name: &'a [u8],
}

/// A lock is acquired, as the kernel's own event tells it.
#[derive(Clone, Copy, Debug, PartialEq, Eq)]
pub struct StockAcquire<'a> {
    /// The lock's address.
    pub lock: u64,
    /// The task doesn't wait for it.
    pub is_trylock: bool,
    /// For reading.
    pub is_read: bool,
    /// The lock's name, as the kernel has it.
    pub name: &'a [u8],
}

/// A lock is released.
#[derive(Clone, Copy, Debug, PartialEq, Eq)]
pub struct Release {
    /// The lock's address.
    pub lock: u64,
}

/// A step begins by which a processor is taken away or comes back.
#[derive(Clone, Copy, Debug, PartialEq, Eq)]
pub struct StepBegin {
    /// The number of that processor.
    pub processor: u32,
    /// The number of the step.
    pub step: i32,
    /// The address of the function that does it.
    pub function: u64,
}

/// Such a step has ended.
#[derive(Clone, Copy, Debug, PartialEq, Eq)]
pub struct StepEnd {
    /// The number of that processor.
    pub processor: u32,
    /// The number of the step.
    pub step: i32,
    /// What it answered: 0 if it was done.
    pub status: i32,
}

/// What an event tells.
#[derive(Clone, Copy, Debug, PartialEq, Eq)]
pub enum What<'a> {
    /// The module's `lockcheck:acquire`.
    Acquire(Acquire<'a>),
    /// The module's `lockcheck:release`.
    Release(Release),
    /// The kernel's `lock:lock_acquire`.
    StockAcquire(StockAcquire<'a>),
    /// The kernel's `lock:lock_release`.
    StockRelease(Release),
    /// `preemptirq:irq_enable`: hardware interrupts are enabled, which the context doesn't show yet.
    IrqEnable,
    /// `preemptirq:irq_disable`: hardware interrupts are disabled, which the context shows.
    IrqDisable,
    /// `cpuhp:cpuhp_enter`.
    StepBegin(StepBegin),
    /// `cpuhp:cpuhp_exit`.
    StepEnd(StepEnd),
    /// Another event, which tells where its task runs.
    Other,
}

/// An event of a kernel's ring.
#[derive(Clone, Copy, Debug, PartialEq, Eq)]
pub struct Event<'a> {
    pub place: Place,
    pub what: What<'a>,
}
