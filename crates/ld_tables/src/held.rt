//! The locks that tasks hold, and the frames that they are in.
ghost use Rattle.std.specs.Prelude.{◌≡◌, ◌<◌, ◌≤◌, ◌+◌, [], ◌∷◌, ◌++◌, length, false, map, remove, true};
ghost use Rattle.std.specs.Prelude.{take, slice_index_or, slice_set, IfNone, IfSome, OnErr, OnOk};
ghost use Rattle.std.specs.List.{list_any};
ghost use Rattle.ld_trace.specs.Events.{plain_lock};
ghost use Rattle.ld_rules.specs.Held.{same_lock};
ghost use Rattle.ld_tables.specs.Inner.Interrupts.{IsEntered, IsLeft, IsSet, fresh, is_on, nests_in};
ghost use Rattle.ld_tables.specs.Inner.Interrupts.{start_now, states_of};
ghost use Rattle.ld_tables.specs.Inner.Stacks.{empty_stack, holds, inner, plain_held};
ghost use Rattle.ld_rules.specs.Inner.Scanned.{remove_last};
ghost use Rattle.ld_rules.specs.declared.outcome.TheConstants.{MOST_HELD};

use crate::context::Context;
use crate::interrupts::{Flag, Interrupts};
use arrayvec::ArrayVec;
use ld_class::same_bytes;
use ld_rules::MOST_HELD;
use ld_trace::{Lock, State};
use std::alloc::{AllocError, Global};
use std::marker::Model;

/// A lock that a task holds.
#[derive(Clone, Copy)]
pub struct Held<'a> {
    pub lock: Lock<'a>,
    /// The number of the lock's class.
    pub class: u32,
    /// The number of the chain of the classes that the task holds in the frame of this lock, up to
    /// this one. `None` where it isn't known: it wasn't looked for yet, or there was no room for it.
    pub chain: Option<u32>,
}

impl<'a> Default for Held<'a> {
    fn default() -> Held<'a> {
        let lock = Lock {
            class: &[],
            instance: None,
        };
        Held {
            lock,
            class: 0,
            chain: None,
        }
    }
}

/// What a task holds and where it is.
#[derive(Drop)]
struct Stack<'a> {
    /// The locks, in order of acquisition: those of outer frames lie below those of inner ones.
    held: ArrayVec<Held<'a>, MOST_HELD>,
    interrupts: Context,
}

impl<'a> Stack<'a> {
    /// That of a task before its first event.
    fn new() -> Stack<'a>
        ensures held { result.held.items ≡ [] }
        ensures interrupts { result.interrupts ≡ fresh }
    {
        Stack {
            held: ArrayVec::new(),
            interrupts: Context::new(),
        }
    }

    /// The same, of a stack that was in use.
    fn clear(&mut self)
        ensures held { self.new.held.items ≡ [] }
        ensures interrupts { self.new.interrupts ≡ fresh }
    {
        self.held.clear();
        self.interrupts = Context::new();
    }
}

/// The stacks of tasks, by the task's number.
#[derive(Drop)]
pub struct Stacks<'a> {
    /// Those of the tasks first. The others are kept for tasks to come, for their memory alone.
    stacks: Vec<Stack<'a>>,
    /// How many tasks there are.
    live: usize,
}

impl<'a> Model for Stacks<'a> {
    ghost use Rattle.std.specs.Prelude.{◌≤◌, List, length, map, take};
    ghost use Rattle.ld_tables.specs.Inner.Stacks.{PlainStack};

    ghost Value = { List PlainStack };

    ghost use Rattle.ld_tables.specs.Inner.Stacks.{plain_held};

    ghost view = { λ s. map (λ stack. record {
      held = map plain_held stack.held.items;
      interrupts = stack.interrupts;
    }) (take s.live s.stacks.items) };

    ghost invariant = { λ s. s.live ≤ length s.stacks.items };
}

impl<'a> Stacks<'a> {
    pub fn new(alloc: Global) -> Stacks<'a>
        ensures { result ≡ [] }
    {
        Stacks {
            stacks: Vec::new(alloc),
            live: 0,
        }
    }

    /// Begins anew, with no task. The memory stays.
    pub fn begin(&mut self)
        ensures { self.new ≡ [] }
    {
        self.live = 0;
    }

    /// One more task, which holds nothing and is outside frames.
    pub fn grow(&mut self) -> Result<(), AllocError>
        ensures grown { OnOk result (self.new ≡ self.old ++ empty_stack ∷ []) }
        ensures refused { OnErr result (self.new ≡ self.old) }
    {
        if self.live < self.stacks.len() {
            self.stacks[self.live].clear();
        } else {
            self.stacks.push(Stack::new())?;
        }
        self.live += 1;
        Ok(())
    }

    /// What the task holds, in all its frames.
    pub fn held(&self, task: u32) -> &[Held<'a>]
        requires { task < length self.now }
        ensures held { map plain_held result.now ≡ (slice_index_or self.now task empty_stack).held }
        ensures depth { length result.now ≤ MOST_HELD }
    {
        self.stacks[task as usize].held.as_slice()
    }

    /// What the task holds in its innermost frame; outside frames, all that it holds.
    pub fn innermost(&self, task: u32) -> &[Held<'a>]
        requires task { task < length self.now }
        requires start { start_now (slice_index_or self.now task empty_stack).interrupts
            ≤ length (slice_index_or self.now task empty_stack).held }
        ensures held { map plain_held result.now
            ≡ inner (slice_index_or self.now task empty_stack) }
        ensures depth { length result.now ≤ MOST_HELD }
    {
        let start = self.context(task).start();
        &self.held(task)[start..]
    }

    /// The task's frames and flags.
    pub fn interrupts(&self, task: u32) -> Interrupts
        requires { task < length self.now }
        ensures { result ≡ (slice_index_or self.now task empty_stack).interrupts }
    {
        self.stacks[task as usize].interrupts.interrupts()
    }

    /// The same, with what they make of an acquisition.
    pub fn context(&self, task: u32) -> &Context
        requires { task < length self.now }
        ensures { result.now ≡ (slice_index_or self.now task empty_stack).interrupts }
    {
        &self.stacks[task as usize].interrupts
    }

    pub fn push(&mut self, task: u32, held: Held<'a>)
        requires task { task < length self.old }
        requires room { length (slice_index_or self.old task empty_stack).held < MOST_HELD }
        ensures { self.new ≡ slice_set self.old task
            (record (slice_index_or self.old task empty_stack) {
              held = (slice_index_or self.old task empty_stack).held
                  ++ plain_held held.entry ∷ [];
            }) }
    {
        self.stacks[task as usize].held.push(held);
    }

    /// Takes the locks from this place on from the task's stack.
    pub fn truncate(&mut self, task: u32, place: usize)
        requires { task < length self.old }
        ensures { self.new ≡ slice_set self.old task
            (record (slice_index_or self.old task empty_stack) {
              held = take place (slice_index_or self.old task empty_stack).held;
            }) }
    {
        self.stacks[task as usize].held.truncate(place);
    }

    /// As [`Interrupts::enter`], in the task's frames.
    pub fn enter(&mut self, task: u32, state: State, start: usize)
        requires task { task < length self.old }
        requires nests { nests_in (states_of (slice_index_or self.old task empty_stack).interrupts)
            state ≡ true }
        ensures changed { self.new ≡ slice_set self.old task
            (record (slice_index_or self.old task empty_stack) {
              interrupts = (slice_index_or self.new task empty_stack).interrupts;
            }) }
        ensures entered { IsEntered state start
            (slice_index_or self.old task empty_stack).interrupts
            (slice_index_or self.new task empty_stack).interrupts }
    {
        self.stacks[task as usize].interrupts.enter(state, start);
    }

    /// As [`Interrupts::exit`], of the task's frames.
    pub fn exit(&mut self, task: u32)
        requires task { task < length self.old }
        requires open { 0
            < length (states_of (slice_index_or self.old task empty_stack).interrupts) }
        ensures changed { self.new ≡ slice_set self.old task
            (record (slice_index_or self.old task empty_stack) {
              interrupts = (slice_index_or self.new task empty_stack).interrupts;
            }) }
        ensures left { IsLeft (slice_index_or self.old task empty_stack).interrupts
            (slice_index_or self.new task empty_stack).interrupts }
    {
        self.stacks[task as usize].interrupts.exit();
    }

    /// As [`Interrupts::set`], of the task's flags.
    pub fn set(&mut self, task: u32, state: State, flag: Flag)
        requires { task < length self.old }
        ensures changed { self.new ≡ slice_set self.old task
            (record (slice_index_or self.old task empty_stack) {
              interrupts = (slice_index_or self.new task empty_stack).interrupts;
            }) }
        ensures set { IsSet state (is_on flag)
            (slice_index_or self.old task empty_stack).interrupts
            (slice_index_or self.new task empty_stack).interrupts }
    {
        self.stacks[task as usize].interrupts.set(state, flag);
    }
}

fn is_same(a: Lock<'_>, b: Lock<'_>) -> bool
    ensures { result ≡ same_lock (plain_lock a.entry) (plain_lock b.entry) }
{
    if !same_bytes(a.class, b.class) {
        return false;
    }
    match (a.instance, b.instance) {
        (None, None) => true,
        (Some(a), Some(b)) => same_bytes(a, b),
        _ => false,
    }
}

/// The place of the latest acquisition of the lock in a stack.
pub fn latest(stack: &[Held<'_>], lock: Lock<'_>) -> Option<usize>
    ensures none { IfNone result
        (list_any (holds (plain_lock lock.entry)) (map plain_held stack.now) ≡ false) }
    ensures place { IfSome result (λ i. i < length stack.now) }
    ensures last { IfSome result (λ i. remove (map plain_held stack.now) i
        ≡ remove_last (holds (plain_lock lock.entry)) (map plain_held stack.now)) }
{
    let mut place = stack.len();
    while place > 0 {
        place -= 1;
        if is_same(lock, stack[place].lock) {
            return Some(place);
        }
    }
    None
}
