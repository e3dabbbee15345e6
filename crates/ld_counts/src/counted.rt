//! What is counted of the events of some traces.

use crate::acquired::part_len;
use crate::chains::Chains;
use crate::known::{Acquired, KnownLocks};
use crate::replay::Tasks;
use crate::told::{class_of, next_other};
use ld_class::Classes;
use ld_rules::{Listed, Outcome};
use ld_trace::{Event, Source, next_event, next_state_event};
use std::alloc::{AllocError, Global};
use std::thread;
use std::thread::Threads;

/// How many events there are of each verb.
#[derive(Clone, Copy, Debug, Default, PartialEq, Eq)]
pub struct Verbs {
    pub acquire: u64,
    pub nested: u64,
    pub tries: u64,
    pub release: u64,
    pub enter: u64,
    pub exit: u64,
    pub enable: u64,
    pub disable: u64,
    pub begin: u64,
}

/// What is counted of the events of some traces.
#[derive(Drop)]
pub struct Counted {
    pub verbs: Verbs,
    /// How many locks a task holds at most at once, over all its handlers.
    pub depth: u64,
    chains: Chains,
}

impl Verbs {
    /// Those of both.
    fn with(self, other: Verbs) -> Verbs {
        Verbs {
            acquire: self.acquire.saturating_add(other.acquire),
            nested: self.nested.saturating_add(other.nested),
            tries: self.tries.saturating_add(other.tries),
            release: self.release.saturating_add(other.release),
            enter: self.enter.saturating_add(other.enter),
            exit: self.exit.saturating_add(other.exit),
            enable: self.enable.saturating_add(other.enable),
            disable: self.disable.saturating_add(other.disable),
            begin: self.begin.saturating_add(other.begin),
        }
    }
}

impl Counted {
    /// What is counted of those of these traces that are read, whose classes are these. That many threads read them
    /// at once.
    ///
    /// # Errors
    ///
    /// `AllocError` where memory was refused.
    pub fn of<R: Threads + Sync>(
        rt: &R,
        alloc: Global,
        classes: &Classes<'_>,
        listed: &[Listed<'_>],
        threads: usize,
    ) -> Result<Counted, AllocError> {
        let parts = thread::map_chunks(
            rt,
            alloc,
            listed,
            part_len(listed.len(), threads),
            &|_, part| counted_of(alloc, classes, part),
        )?;
        let mut all = None;
        for part in parts {
            all = Some(match all {
                Some(all) => sum(all, &part?)?,
                None => part?,
            });
        }
        match all {
            Some(all) => Ok(all),
            None => Counted::new(alloc),
        }
    }

    /// How many distinct chains there are: sequences of classes that a task holds in one handler, or outside any,
    /// just after it acquired there.
    pub fn chain_count(&self) -> u64 {
        self.chains.count()
    }

    /// Nothing.
    fn new(alloc: Global) -> Result<Counted, AllocError> {
        let chains = Chains::new(alloc)?;
        Ok(Counted {
            verbs: Verbs::default(),
            depth: 0,
            chains,
        })
    }
}

/// What is counted of both.
fn sum(one: Counted, other: &Counted) -> Result<Counted, AllocError> {
    let mut sum = one;
    sum.verbs = sum.verbs.with(other.verbs);
    sum.depth = sum.depth.max(other.depth);
    sum.chains.add_all(&other.chains)?;
    Ok(sum)
}

/// One more.
fn raise(count: &mut u64) {
    *count = count.saturating_add(1);
}

/// What is counted of these traces.
fn counted_of<'a>(
    alloc: Global,
    classes: &Classes<'a>,
    listed: &[Listed<'a>],
) -> Result<Counted, AllocError> {
    let mut counted = Counted::new(alloc)?;
    count(alloc, &mut counted, classes, listed)?;
    Ok(counted)
}

/// Counts the events of these traces.
fn count<'a>(
    alloc: Global,
    counted: &mut Counted,
    classes: &Classes<'a>,
    listed: &[Listed<'a>],
) -> Result<(), AllocError> {
    let mut counting = Counting {
        counted,
        locks: KnownLocks::new(alloc, classes)?,
        tasks: Tasks::new(alloc),
    };
    counting.traces(listed)
}

/// Counts events, one after another.
#[derive(Drop)]
struct Counting<'k, 'c, 'a> {
    counted: &'k mut Counted,
    locks: KnownLocks<'c, 'a>,
    tasks: Tasks<'a>,
}

impl<'k, 'c, 'a> Counting<'k, 'c, 'a> {
    /// Counts the events of these traces.
    fn traces(&mut self, listed: &[Listed<'a>]) -> Result<(), AllocError> {
        for trace in listed {
            if let Outcome::Read { .. } = trace.outcome {
                self.trace(trace.source)?;
            }
        }
        Ok(())
    }

    /// Counts the events of a trace.
    fn trace(&mut self, source: Source<'a>) -> Result<(), AllocError> {
        self.tasks.clear();
        let mut left = source.bytes;
        // Each line has a byte.
        for _ in 0..source.bytes.len() {
            if let Some(rest) = self.tasks.release_last(left) {
                raise(&mut self.counted.verbs.release);
                left = rest;
            } else if let Some(acquired) = self.locks.next_acquired(left) {
                raise(&mut self.counted.verbs.acquire);
                self.hold(&acquired)?;
                left = acquired.rest;
            } else if let Some(rest) = self.tasks.release_written(left) {
                raise(&mut self.counted.verbs.release);
                left = rest;
            } else if let Some((event, rest)) = next_state_event(left) {
                self.other(&event)?;
                left = rest;
            } else if let Some(rest) = self.next(left)? {
                left = rest;
            } else {
                break;
            }
        }
        Ok(())
    }

    /// Counts the event of the first line, if it names one, however that is written: what follows the line, or `None`
    /// where there is no byte.
    #[inline(never)]
    fn next(&mut self, bytes: &'a [u8]) -> Result<Option<&'a [u8]>, AllocError> {
        if let Some(acquired) = self.locks.next_trylocked(bytes) {
            raise(&mut self.counted.verbs.tries);
            self.hold(&acquired)?;
            return Ok(Some(acquired.rest));
        }
        if let Some((event, rest)) = next_event(bytes) {
            self.event(&event, line_before(bytes, rest))?;
            return Ok(Some(rest));
        }
        let Some((event, rest)) = next_other(bytes) else {
            return Ok(None);
        };
        if let Some(event) = event {
            self.event(&event, &[])?;
        }
        Ok(Some(rest))
    }

    /// Counts an event, and what it does. `line` is its line, or empty where that isn't in its plainest form.
    fn event(&mut self, event: &Event<'a>, line: &'a [u8]) -> Result<(), AllocError> {
        let verbs = &mut self.counted.verbs;
        let (task, lock, sub, text) = match *event {
            Event::Acquire { task, lock } => {
                raise(&mut verbs.acquire);
                (task, lock, 0, behind(line, "acquire ".len()))
            }
            Event::Try { task, lock } => {
                raise(&mut verbs.tries);
                (task, lock, 0, behind(line, "try ".len()))
            }
            Event::Nested { task, lock, sub } => {
                raise(&mut verbs.nested);
                (task, lock, sub, behind(line, line.len()))
            }
            _ => return self.other(event),
        };
        let Some(class) = self.locks.numbered.find(class_of(lock, sub)) else {
            return Ok(());
        };
        self.hold(&Acquired {
            task,
            class,
            instance: lock.instance,
            text,
            rest: &[],
        })
    }

    /// A task holds a lock more.
    #[inline(always)]
    fn hold(&mut self, acquired: &Acquired<'a>) -> Result<(), AllocError> {
        let (chain, held) = self.tasks.acquire(acquired)?;
        self.counted.depth = self.counted.depth.max(held as u64);
        self.counted.chains.add(chain)
    }

    /// The same of an event that acquires nothing.
    fn other(&mut self, event: &Event<'a>) -> Result<(), AllocError> {
        let verbs = &mut self.counted.verbs;
        match *event {
            Event::Release { task, lock } => {
                raise(&mut verbs.release);
                self.tasks
                    .release(self.locks.numbered.classes(), task, lock)
            }
            Event::Enter { task, .. } => {
                raise(&mut verbs.enter);
                self.tasks.enter(task)
            }
            Event::Exit { task, .. } => {
                raise(&mut verbs.exit);
                self.tasks.exit(task)
            }
            Event::Enable { .. } => {
                raise(&mut verbs.enable);
                Ok(())
            }
            Event::Disable { .. } => {
                raise(&mut verbs.disable);
                Ok(())
            }
            Event::Begin { .. } => {
                raise(&mut verbs.begin);
                Ok(())
            }
            Event::Acquire { .. } | Event::Nested { .. } | Event::Try { .. } => Ok(()),
        }
    }
}

/// The first line of these bytes, where `rest` follows it; empty if a CR stands before its LF, since only lines that end
/// alike are compared by their texts.
fn line_before<'a>(bytes: &'a [u8], rest: &[u8]) -> &'a [u8] {
    let len = bytes.len().saturating_sub(rest.len());
    match bytes.get(..len) {
        Some([.., b'\r', b'\n']) | None => &[],
        Some(line) => line,
    }
}

/// The bytes of a line behind so many.
fn behind(line: &[u8], len: usize) -> &[u8] {
    line.get(len..).unwrap_or(&[])
}
