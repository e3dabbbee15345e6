//! What the tasks of a trace hold, one event after another. The trace was read, so none of its events has a fault.

use crate::chains::{NO_CHAIN, chain_of};
use crate::known::Acquired;
use crate::lines::{next_release, same_bytes};
use ld_class::{ClassName, Classes};
use ld_tables::TaskNames;
use ld_trace::Lock;
use std::alloc::{AllocError, Global};

/// How many tasks are told apart at most: more than a trace has.
const MOST_TASKS: usize = 1 << 20;

/// A lock that a task holds.
#[derive(Clone, Copy)]
struct Hold<'a> {
    /// The number of its class.
    class: u32,
    instance: Option<&'a [u8]>,
    /// What stands for the classes that are held in its frame up to this one.
    chain: u64,
    /// What follows the verb in the line of its acquisition, with its LF; empty where that isn't in its plainest form.
    text: &'a [u8],
}

/// A task.
#[derive(Drop)]
pub(crate) struct Task<'a> {
    /// What it holds, in order of acquisition.
    holds: Vec<Hold<'a>>,
    /// For each handler that it is in, the outermost first, how much it held when that began.
    handlers: Vec<usize>,
}

/// The tasks of a trace.
#[derive(Drop)]
pub(crate) struct Tasks<'a> {
    alloc: Global,
    names: TaskNames<'a>,
    /// Those of the names, in their order; behind them what earlier traces left.
    tasks: Vec<Task<'a>>,
    /// The place of the last event's task; past the end where the trace had no event.
    last: usize,
}

impl<'a> Tasks<'a> {
    /// No task.
    pub(crate) fn new(alloc: Global) -> Tasks<'a> {
        Tasks {
            alloc,
            names: TaskNames::new(alloc),
            tasks: Vec::new(alloc),
            last: usize::MAX,
        }
    }

    /// Another trace begins.
    pub(crate) fn clear(&mut self) {
        self.names.clear();
        self.last = usize::MAX;
    }

    /// A task acquires a lock: the chain that it holds then in its frame, and how much it holds.
    #[inline(always)]
    pub(crate) fn acquire(&mut self, acquired: &Acquired<'a>) -> Result<(u64, usize), AllocError> {
        let place = self.place(acquired.task)?;
        match self.tasks.get_mut(place) {
            Some(task) => task.acquire(acquired),
            None => Ok((NO_CHAIN, 0)),
        }
    }

    /// What follows the first line, where it releases what the last event's task acquired last, as most releases do:
    /// such a line isn't read any further. `None` says nothing, and nothing was done.
    #[inline(always)]
    pub(crate) fn release_last(&mut self, bytes: &'a [u8]) -> Option<&'a [u8]> {
        let released = bytes.strip_prefix(b"release ")?;
        self.tasks.get_mut(self.last)?.release_last(released)
    }

    /// What follows the first line, where it releases a lock that its task holds in its frame, and where it and the
    /// acquisitions there from that lock's on are in their plainest form: such a lock is found by its text. `None`
    /// says nothing, and nothing was let go.
    pub(crate) fn release_written(&mut self, bytes: &'a [u8]) -> Option<&'a [u8]> {
        let words = next_release(bytes)?;
        let place = self.names.find(words.task)? as usize;
        self.last = place;
        let released = self.tasks.get_mut(place)?.release_written(words.text);
        released.then_some(words.rest)
    }

    /// The task releases a lock. Its class is among these.
    pub(crate) fn release(
        &mut self,
        classes: &Classes<'_>,
        task: &'a [u8],
        lock: Lock<'_>,
    ) -> Result<(), AllocError> {
        let place = self.place(task)?;
        if let Some(task) = self.tasks.get_mut(place) {
            task.release(classes, lock);
        }
        Ok(())
    }

    /// A handler begins over the task.
    pub(crate) fn enter(&mut self, task: &'a [u8]) -> Result<(), AllocError> {
        let place = self.place(task)?;
        if let Some(task) = self.tasks.get_mut(place) {
            task.handlers.push(task.holds.len())?;
        }
        Ok(())
    }

    /// The task's handler that began last ends.
    pub(crate) fn exit(&mut self, task: &'a [u8]) -> Result<(), AllocError> {
        let place = self.place(task)?;
        if let Some(task) = self.tasks.get_mut(place) {
            task.handlers.pop();
        }
        Ok(())
    }

    /// The place of the task of this name, which is new where it has none.
    #[inline(always)]
    fn place(&mut self, name: &'a [u8]) -> Result<usize, AllocError> {
        let place = match self.names.find(name) {
            Some(place) => place as usize,
            None => self.add(name)?,
        };
        self.last = place;
        Ok(place)
    }

    /// The place of a task that had no event yet.
    #[inline(never)]
    fn add(&mut self, name: &'a [u8]) -> Result<usize, AllocError> {
        if self.names.len() >= MOST_TASKS {
            return Err(AllocError);
        }
        let place = self.names.intern(name)? as usize;
        match self.tasks.get_mut(place) {
            Some(task) => task.clear(),
            None => self.tasks.push(Task::new(self.alloc))?,
        }
        Ok(place)
    }
}

impl<'a> Task<'a> {
    /// It holds nothing.
    fn new(alloc: Global) -> Task<'a> {
        Task {
            holds: Vec::new(alloc),
            handlers: Vec::new(alloc),
        }
    }

    /// It holds nothing any more.
    fn clear(&mut self) {
        self.holds.clear();
        self.handlers.clear();
    }

    /// How much it held when its frame began.
    fn frame_start(&self) -> usize {
        self.handlers.last().copied().unwrap_or(0)
    }

    /// What stands for the classes that it holds in its frame before this place.
    fn chain_before(&self, place: usize) -> u64 {
        if place <= self.frame_start() {
            return NO_CHAIN;
        }
        match self.holds.get(place.saturating_sub(1)) {
            Some(hold) => hold.chain,
            None => NO_CHAIN,
        }
    }

    #[inline(always)]
    fn acquire(&mut self, acquired: &Acquired<'a>) -> Result<(u64, usize), AllocError> {
        let chain = chain_of(self.chain_before(self.holds.len()), acquired.class);
        self.holds.push(Hold {
            class: acquired.class,
            instance: acquired.instance,
            chain,
            text: acquired.text,
        })?;
        Ok((chain, self.holds.len()))
    }

    /// Lets what it acquired last go, where that is in its frame and these bytes begin with the text of that
    /// acquisition: what follows the text.
    fn release_last(&mut self, bytes: &'a [u8]) -> Option<&'a [u8]> {
        let text = self.last_text()?;
        let (front, rest) = bytes.split_at_checked(text.len())?;
        if !same_bytes(front, text) {
            return None;
        }
        self.holds.pop();
        Some(rest)
    }

    /// The text of what it acquired last, where that is in its frame and has one.
    fn last_text(&self) -> Option<&'a [u8]> {
        if self.holds.len() <= self.frame_start() {
            return None;
        }
        match self.holds.last() {
            Some(hold) if !hold.text.is_empty() => Some(hold.text),
            _ => None,
        }
    }

    /// Lets the latest acquisition in its frame that has this text go, where each later one there has a text too;
    /// else it answers `false`.
    fn release_written(&mut self, text: &[u8]) -> bool {
        match self.latest(&|hold| hold.text.is_empty() || same_bytes(hold.text, text)) {
            Some(place) if self.is_written(place) => {
                self.let_go(place);
                true
            }
            _ => false,
        }
    }

    /// Whether the acquisition at this place has a text.
    fn is_written(&self, place: usize) -> bool {
        match self.holds.get(place) {
            Some(hold) => !hold.text.is_empty(),
            None => false,
        }
    }

    /// Lets the latest acquisition of the lock in its frame go.
    fn release(&mut self, classes: &Classes<'_>, lock: Lock<'_>) {
        if let Some(place) = self.latest(&|hold| hold.is_of(classes, lock)) {
            self.let_go(place);
        }
    }

    /// Lets the acquisition at this place go.
    fn let_go(&mut self, place: usize) {
        if place < self.holds.len() {
            self.holds.remove(place);
            self.link_from(place);
        }
    }

    /// The place of the latest acquisition in its frame that is wanted.
    fn latest<F: Fn(&Hold<'a>) -> bool>(&self, is_wanted: &F) -> Option<usize>
        requires { F.IsAlwaysCallable is_wanted.now }
    {
        for place in (self.frame_start()..self.holds.len()).rev() {
            if is_wanted(&self.holds[place]) {
                return Some(place);
            }
        }
        None
    }

    /// Makes anew what stands for the classes that it holds in its frame up to each from this place on.
    fn link_from(&mut self, start: usize) {
        let mut chain = self.chain_before(start);
        for place in start..self.holds.len() {
            if let Some(hold) = self.holds.get_mut(place) {
                chain = chain_of(chain, hold.class);
                hold.chain = chain;
            }
        }
    }
}

impl Hold<'_> {
    /// Whether it is this lock, as whatever subclass it was acquired.
    fn is_of(&self, classes: &Classes<'_>, lock: Lock<'_>) -> bool {
        if (self.class as usize) >= classes.len() {
            return false;
        }
        let sub = classes.name(self.class).sub;
        let name = lock.class;
        classes.is_at(self.class, ClassName { name, sub }) && self.instance == lock.instance
    }
}
