//! The scan of a trace: what its events so far leave, one event at a time.
ghost use Rattle.std.specs.Prelude.{◌≡◌, ◌<◌, ◌≤◌, ℕ, [], None, Err, fold, length, map, slice_index_or, IfOk, OnOk};
ghost use Rattle.ld_class.specs.Names.{place_of, plain_class, with_name, IsNameAt};
ghost use Rattle.ld_class.specs.declared.names.TheConstants.{MOST_NAMES};
ghost use Rattle.ld_trace.specs.Events.{plain_event, plain_lock};
ghost use Rattle.ld_trace.specs.Events.PlainEvent.{Begin, Disable, Enable, Enter, Exit, Release};
ghost use Rattle.ld_tables.specs.Inner.Interrupts.{fresh};
ghost use Rattle.ld_facts.specs.Inner.Scan.{AreMany, HasWaited, IsItsFault, IsStep, StandsOn, acquisition, fresh_scan, own_names, taken};
ghost use Rattle.ld_tables.specs.Inner.Uses.{on_facts, with_use};
ghost use Rattle.ld_rules.specs.declared.fault.TraceFault.{TraceFault};
ghost use Rattle.ld_rules.specs.declared.outcome.TheConstants.{MOST_CLASSES, MOST_HELD};

use crate::acquire_kind::AcquireKind;
use ld_class::{ClassName, Classes};
use ld_rules::{MOST_CLASSES, MOST_HELD, TraceFault};
use ld_tables::{Flag, Locks, MarkedSet, TaskNames, Uses};
use ld_trace::{Event, Lock, State};
use std::alloc::{AllocError, Global};

/// How much there was before the trace.
#[derive(Clone, Copy)]
pub struct TraceStart {
    pub(crate) classes: usize,
    pub(crate) uses: usize,
}

/// What the events of a trace so far leave, on top of what was there before them.
#[derive(Drop)]
pub struct Scan<'a> {
    /// The tasks, in order of first event.
    pub tasks: TaskNames<'a>,
    /// The classes: those that were there before the trace, then those that it adds, in order of
    /// first acquisition.
    pub classes: Classes<'a>,
    /// The classes of the trace, by their numbers, in order of first acquisition.
    pub own: MarkedSet,
    /// What the tasks hold, by their numbers, their frames and flags, and the dependencies.
    pub locks: Locks<'a>,
    /// The usage bits of the classes, by their numbers.
    pub uses: Uses,
    pub(crate) before: TraceStart,
}

impl<'a> Scan<'a> {
    /// Before the first event.
    pub fn new(alloc: Global) -> Scan<'a>
        ensures { result ≡ fresh_scan [] }
    {
        Scan {
            tasks: TaskNames::new(alloc),
            classes: Classes::new(alloc),
            own: MarkedSet::new(alloc),
            locks: Locks::new(alloc),
            uses: Uses::new(alloc),
            before: TraceStart {
                classes: 0,
                uses: 0,
            },
        }
    }

    /// One more event, at this line.
    pub fn step(&mut self, event: Event<'a>, line: u64) -> Result<(), Stop>
        requires many { AreMany self.old }
        ensures many { OnOk result (AreMany self.new) }
        ensures ok { OnOk result (IsStep self.old line (plain_event event.entry) self.new) }
        ensures fault { IsItsFault self.old (plain_event event.entry) result }
        ensures first { StandsOn self.old self.new }
    {
        let acquired = match event {
            Event::Acquire { task, lock } => (task, lock, AcquireKind::Waiting),
            Event::Try { task, lock } => (task, lock, AcquireKind::Trying),
            Event::Nested { task, lock, sub } => (task, lock, AcquireKind::Nesting(sub)),
            Event::Release { task, lock } => return self.release(task, lock),
            Event::Enter { task, state } => return self.enter(task, state),
            Event::Exit { task, state } => return self.exit(task, state, line),
            Event::Enable { task, state } => return self.enable(task, state, line),
            Event::Disable { task, state } => return self.disable(task, state),
            Event::Begin { task, hard, soft } => return self.begin_task(task, hard, soft),
        };
        let (task, lock, how) = acquired;
        self.acquire(task, lock, line, how)
    }

    /// An acquisition.
    fn acquire(
        &mut self,
        task: &'a [u8],
        lock: Lock<'a>,
        line: u64,
        how: AcquireKind,
    ) -> Result<(), Stop>
        requires many { AreMany self.old }
        ensures many { OnOk result (AreMany self.new) }
        ensures ok { OnOk result (IsStep self.old line
            (acquisition how task.entry.now (plain_lock lock.entry)) self.new) }
        ensures fault { IsItsFault self.old
            (acquisition how task.entry.now (plain_lock lock.entry)) result }
        ensures first { StandsOn self.old self.new }
    {
        let task = self.task(task)?;
        let class = self.class(how.class_of(lock))?;
        if self.locks.held(task).len() >= MOST_HELD {
            return Err(Stop::Fault(TraceFault::TooDeep));
        }
        if how.waits() {
            self.wait(task, class, line)?;
        }
        self.take(task, class, lock, line)?;
        Ok(())
    }

    /// The task waits for a lock of the class: there are dependencies on it, and it is used in the
    /// task's contexts.
    fn wait(&mut self, task: u32, class: u32, line: u64) -> Result<(), AllocError>
        requires { task < length self.old.locks.stacks }
        ensures waited { OnOk result (HasWaited self.old task class line self.new) }
        ensures first { StandsOn self.old self.new }
    {
        self.locks.tell(task, class, line)?;
        self.uses.waited(class, self.locks.context(task), line)
    }

    /// The task holds the lock from now on, which counts under its flags.
    fn take(&mut self, task: u32, class: u32, lock: Lock<'a>, line: u64) -> Result<(), AllocError>
        requires task { task < length self.old.locks.stacks }
        requires room { length (slice_index_or self.old.locks.stacks task []) < MOST_HELD }
        ensures taken { OnOk result
            (self.new ≡ taken self.old task class (plain_lock lock.entry) line) }
        ensures first { StandsOn self.old self.new }
    {
        self.locks.hold(task, lock, class)?;
        self.uses.acquired(class, self.locks.context(task), line)
    }

    /// A release: the latest acquisition of the lock in the task's innermost frame ends.
    fn release(&mut self, task: &'a [u8], lock: Lock<'a>) -> Result<(), Stop>
        requires many { AreMany self.old }
        ensures many { OnOk result (AreMany self.new) }
        ensures ok { OnOk result ((line : ℕ) → IsStep self.old line
            (Release task.entry.now (plain_lock lock.entry)) self.new) }
        ensures fault { IsItsFault self.old (Release task.entry.now (plain_lock lock.entry)) result }
        ensures first { StandsOn self.old self.new }
    {
        let task = self.task(task)?;
        if self.locks.let_go(task, lock) {
            Ok(())
        } else {
            Err(Stop::Fault(TraceFault::NotHeld))
        }
    }

    /// A handler of this state begins: a frame opens within the others of the task.
    fn enter(&mut self, task: &'a [u8], state: State) -> Result<(), Stop>
        requires many { AreMany self.old }
        ensures many { OnOk result (AreMany self.new) }
        ensures ok { OnOk result ((line : ℕ) →
            IsStep self.old line (Enter task.entry.now state) self.new) }
        ensures fault { IsItsFault self.old (Enter task.entry.now state) result }
        ensures first { StandsOn self.old self.new }
    {
        let task = self.task(task)?;
        let interrupts = self.locks.interrupts(task);
        if !interrupts.nests(state) {
            return Err(Stop::Fault(TraceFault::BadNest));
        }
        if !interrupts.is_enabled(state) {
            return Err(Stop::Fault(TraceFault::Masked));
        }
        self.locks.enter(task, state);
        Ok(())
    }

    /// The innermost handler ends: its frame closes, and the flags around it count again.
    fn exit(&mut self, task: &'a [u8], state: State, line: u64) -> Result<(), Stop>
        requires many { AreMany self.old }
        ensures many { OnOk result (AreMany self.new) }
        ensures ok { OnOk result (IsStep self.old line (Exit task.entry.now state) self.new) }
        ensures fault { IsItsFault self.old (Exit task.entry.now state) result }
        ensures first { StandsOn self.old self.new }
    {
        let task = self.task(task)?;
        let interrupts = self.locks.interrupts(task);
        if !interrupts.is_innermost(state) {
            return Err(Stop::Fault(TraceFault::BadExit));
        }
        if self.locks.held(task).len() != interrupts.start() {
            return Err(Stop::Fault(TraceFault::HeldAtExit));
        }
        self.locks.exit(task);
        self.count_held(task, line)?;
        Ok(())
    }

    /// The flag for this state goes on in the task's innermost frame.
    fn enable(&mut self, task: &'a [u8], state: State, line: u64) -> Result<(), Stop>
        requires many { AreMany self.old }
        ensures many { OnOk result (AreMany self.new) }
        ensures ok { OnOk result (IsStep self.old line (Enable task.entry.now state) self.new) }
        ensures fault { IsItsFault self.old (Enable task.entry.now state) result }
        ensures first { StandsOn self.old self.new }
    {
        let task = self.task(task)?;
        if self.locks.interrupts(task).has(state) {
            return Err(Stop::Fault(TraceFault::BadEnable));
        }
        self.locks.set(task, state, Flag::On);
        self.count_held(task, line)?;
        Ok(())
    }

    /// The flag for this state goes off in the task's innermost frame.
    fn disable(&mut self, task: &'a [u8], state: State) -> Result<(), Stop>
        requires many { AreMany self.old }
        ensures many { OnOk result (AreMany self.new) }
        ensures ok { OnOk result ((line : ℕ) →
            IsStep self.old line (Disable task.entry.now state) self.new) }
        ensures fault { IsItsFault self.old (Disable task.entry.now state) result }
        ensures first { StandsOn self.old self.new }
    {
        let task = self.task(task)?;
        self.locks.set(task, state, Flag::Off);
        Ok(())
    }

    /// The task's first event says its flags outside frames.
    fn begin_task(&mut self, task: &'a [u8], hard: bool, soft: bool) -> Result<(), Stop>
        requires many { AreMany self.old }
        ensures many { OnOk result (AreMany self.new) }
        ensures ok { OnOk result ((line : ℕ) →
            IsStep self.old line (Begin task.entry.now hard soft) self.new) }
        ensures fault { IsItsFault self.old (Begin task.entry.now hard soft) result }
        ensures first { StandsOn self.old self.new }
    {
        if self.tasks.find(task).is_some() {
            return Err(Stop::Fault(TraceFault::LateBegin));
        }
        let task = self.task(task)?;
        self.locks.set(task, State::Hard, Flag::of(hard));
        self.locks.set(task, State::Soft, Flag::of(soft));
        Ok(())
    }

    /// All that the task holds, in every frame, counts under its flags.
    // Most tasks hold nothing where a frame closes, and where a flag goes on.
    #[inline(always)]
    fn count_held(&mut self, task: u32, line: u64) -> Result<(), AllocError>
        requires { task < length self.old.locks.stacks }
        ensures counted { OnOk result (self.new ≡ record self.old {
          uses = fold with_use self.old.uses
              (on_facts (slice_index_or self.old.locks.interrupts task fresh) line
              (map (λ hold. hold.class) (slice_index_or self.old.locks.stacks task [])));
        }) }
        ensures first { StandsOn self.old self.new }
    {
        let held = self.locks.held(task);
        if held.is_empty() {
            return Ok(());
        }
        self.uses.held(held, self.locks.interrupts(task), line)
    }

    /// The number of the class, which may be new, or new to the trace.
    fn class(&mut self, name: ClassName<'a>) -> Result<u32, Stop>
        requires many { AreMany self.old }
        ensures many { OnOk result (AreMany self.new) }
        ensures place { IfOk result (λ id. IsNameAt self.new.classes id (plain_class name.entry)) }
        ensures classes { OnOk result
            (self.new.classes ≡ with_name self.old.classes (plain_class name.entry)) }
        ensures own { OnOk result
            (own_names self.new ≡ with_name (own_names self.old) (plain_class name.entry)) }
        ensures fits { OnOk result (place_of (own_names self.old) (plain_class name.entry) ≡ None →
            length self.old.own < MOST_CLASSES) }
        ensures others { (self.new.tasks ≡ self.old.tasks)
            × (self.new.locks ≡ self.old.locks)
            × (self.new.uses ≡ self.old.uses) }
        ensures fault { (fault : TraceFault) → result ≡ Err (Stop.Fault fault) →
            (fault ≡ TraceFault.TooManyClasses)
            × (place_of (own_names self.old) (plain_class name.entry) ≡ None)
            × (MOST_CLASSES ≤ length self.old.own) }
        ensures first { StandsOn self.old self.new }
    {
        let known = self.find(name);
        if let Some(class) = known {
            if self.own.has(class) {
                return Ok(class);
            }
        }
        self.own_class(known, name)
    }

    /// The number of a class that is new to the trace; the number that it is known by, if any, is
    /// `known`.
    fn own_class(&mut self, known: Option<u32>, name: ClassName<'a>) -> Result<u32, Stop>
        requires many { AreMany self.old }
        requires known { known ≡ place_of self.old.classes (plain_class name) }
        requires new { place_of (own_names self.old) (plain_class name) ≡ None }
        ensures many { OnOk result (AreMany self.new) }
        ensures place { IfOk result (λ id. IsNameAt self.new.classes id (plain_class name.entry)) }
        ensures classes { OnOk result
            (self.new.classes ≡ with_name self.old.classes (plain_class name.entry)) }
        ensures own { OnOk result
            (own_names self.new ≡ with_name (own_names self.old) (plain_class name.entry)) }
        ensures fits { OnOk result (length self.old.own < MOST_CLASSES) }
        ensures others { (self.new.tasks ≡ self.old.tasks)
            × (self.new.locks ≡ self.old.locks)
            × (self.new.uses ≡ self.old.uses) }
        ensures fault { (fault : TraceFault) → result ≡ Err (Stop.Fault fault) →
            (fault ≡ TraceFault.TooManyClasses)
            × (place_of (own_names self.old) (plain_class name.entry) ≡ None)
            × (MOST_CLASSES ≤ length self.old.own) }
        ensures first { StandsOn self.old self.new }
    {
        if self.own.as_slice().len() >= MOST_CLASSES {
            return Err(Stop::Fault(TraceFault::TooManyClasses));
        }
        let class = self.number(known, name)?;
        self.own.add(class)?;
        Ok(class)
    }

    /// The number of the class among all, which may be new; the number that it is known by, if any,
    /// is `known`.
    fn number(&mut self, known: Option<u32>, name: ClassName<'a>) -> Result<u32, AllocError>
        requires known { known ≡ place_of self.old.classes (plain_class name) }
        requires room { length self.old.classes < MOST_NAMES }
        ensures place { IfOk result (λ id. IsNameAt self.new.classes id (plain_class name.entry)) }
        ensures classes { OnOk result
            (self.new.classes ≡ with_name self.old.classes (plain_class name.entry)) }
        ensures others { self.new ≡ record self.old { classes = self.new.classes } }
        ensures first { StandsOn self.old self.new }
    {
        match known {
            Some(class) => Ok(class),
            None => self.classes.intern(name),
        }
    }
}

/// Why a scan ends before its trace does.
#[derive(Clone, Copy)]
pub enum Stop {
    /// There is no memory.
    Memory,
    /// The trace is refused.
    Fault(TraceFault),
}

impl From<AllocError> for Stop {
    ghost use Rattle.ld_facts.specs.declared.scan.Stop.TheVariants.{Memory};

    ghost from_gives = { λ _ stop. stop ≡ Memory };

    fn from(_: AllocError) -> Stop {
        Stop::Memory
    }
}
