//! What tasks hold and where they are, and the dependencies that their waiting acquisitions told.
//!
//! Locks of outer frames stay held, but an acquisition and a release see those of the innermost
//! frame alone.
ghost use Rattle.std.specs.Prelude.{◌≡◌, ◌<◌, ◌+◌, true, [], ◌∷◌, ◌++◌, All, IfOk, length};
ghost use Rattle.std.specs.Prelude.{map, take, slice_index_or, slice_set, OnOk};
ghost use Rattle.std.specs.Bool.{OnTrue};
ghost use Rattle.ld_trace.specs.Events.{plain_lock};
ghost use Rattle.ld_class.specs.Blocks.{IsBlock};
ghost use Rattle.ld_tables.specs.declared.chains.TheConstants.{MOST_CHAINS};
ghost use Rattle.ld_tables.specs.declared.edges.TheConstants.{MOST_WORDS};
ghost use Rattle.ld_tables.specs.Inner.Edges.{edges_of};
ghost use Rattle.ld_tables.specs.Inner.Interrupts.{IsEntered, IsLeft, IsSet, fresh, nests_in, start_now};
ghost use Rattle.ld_tables.specs.Inner.Interrupts.{is_on, states_of};
ghost use Rattle.ld_tables.specs.Inner.Locks.{ChangesInterrupts, Tells, holds_of, inner_of};
ghost use Rattle.ld_rules.specs.declared.outcome.TheConstants.{MOST_HELD};

mod releases;

use crate::chains::Chains;
use crate::context::Context;
use crate::edges::{EdgeFact, Edges};
use crate::facts::all_facts;
use crate::held::{Held, Stacks};
use crate::hints::Hints;
use crate::interrupts::{Flag, Interrupts};
use crate::linking::{Kept, is_unlinked, learn, linked, make_room, make_room_if_untold};
use crate::marked_set::MarkedSet;
use crate::masks::NewEdges;
use ld_class::ClassName;
use ld_rules::MOST_HELD;
use ld_trace::{Lock, State};
use std::alloc::{AllocError, Global};
use std::marker::Model;

/// How much there was when the trace began.
#[derive(Clone, Copy)]
struct LocksStart {
    /// How many tellings of dependencies.
    edges: usize,
    /// How many chains had the dependencies of their last class told.
    told: usize,
}

/// What each task of a trace holds and where it is, by the task's number, and the dependencies so
/// far, also of the traces before it.
///
/// Beside them stands a cache: a waiting acquisition by which a chain comes that was told before tells
/// nothing anew, and one that was met before learns the masks of its dependencies when it is told, while
/// there is room. Chains and words stay when the dependencies are taken away.
///
/// A call answers `AllocError` where a growth of memory was refused. It may have done a part of its
/// work then, so the owner takes the trace back, or gives the whole up.
#[derive(Drop)]
pub struct Locks<'a> {
    stacks: Stacks<'a>,
    chains: Chains,
    /// The numbers of the chains that had the dependencies of their last class told.
    told: MarkedSet,
    edges: Edges,
    before: LocksStart,
    hints: Hints,
    alloc: Global,
}

impl<'a> Model for Locks<'a> {
    ghost use Rattle.std.specs.Prelude.{take};
    ghost use Rattle.ld_tables.specs.Inner.Edges.{edges_of};
    ghost use Rattle.ld_tables.specs.Inner.Locks.{HeldByTasks};

    ghost Value = { HeldByTasks };

    ghost use Rattle.ld_tables.specs.Inner.Locks.{IsKept, held_by_tasks};

    ghost view = { λ l. held_by_tasks l.stacks (edges_of l.edges.tellings)
        (edges_of (take l.before.edges l.edges.tellings)) };

    ghost invariant = { λ l. IsKept l.stacks l.chains l.told l.edges l.before };
}

impl<'a> Locks<'a> {
    /// No task. Takes no memory.
    pub fn new(alloc: Global) -> Locks<'a>
        ensures { result ≡ record { stacks = []; interrupts = []; edges = []; before = [] } }
    {
        Locks {
            stacks: Stacks::new(alloc),
            chains: Chains::new(alloc),
            told: MarkedSet::new(alloc),
            edges: Edges::new(alloc),
            before: LocksStart { edges: 0, told: 0 },
            hints: Hints::new(),
            alloc,
        }
    }

    /// A hint where the class of a lock stands among those that are known. No clause says anything of it: whoever
    /// reads one compares the name that stands there.
    #[inline(always)]
    pub fn hint(&self, name: ClassName<'_>) -> u32 {
        self.hints.of(name)
    }

    /// The class was found at this place, which is its hint from now on.
    pub fn note(&mut self, name: ClassName<'_>, place: u32)
        ensures { self.new ≡ self.old }
    {
        self.hints.note(name, place);
    }

    /// A trace begins, with no task, on top of the dependencies that are there.
    pub fn begin(&mut self)
        ensures { self.new ≡ record {
          stacks = [];
          interrupts = [];
          edges = self.old.edges;
          before = self.old.edges;
        } }
    {
        self.stacks.begin();
        make_room_if_untold(&mut self.chains, &self.told, &mut self.edges);
        self.before = LocksStart {
            edges: self.edges.tellings().len(),
            told: self.told.as_slice().len(),
        };
    }

    /// All is again as when the trace began, with no task.
    pub fn undo(&mut self)
        ensures { self.new ≡ record {
          stacks = [];
          interrupts = [];
          edges = self.old.before;
          before = self.old.before;
        } }
    {
        self.stacks.begin();
        self.edges.cut(self.before.edges);
        self.told.cut(self.before.told);
        make_room_if_untold(&mut self.chains, &self.told, &mut self.edges);
    }

    /// Whether there is room for further chains and words. No clause says so: it is a hint.
    pub fn has_room(&self) -> bool {
        self.chains.has_room() && self.edges.has_room()
    }

    /// Takes all away. The memory stays; and so do the chains that were met and the numbers of
    /// words, while there is room for further ones of both ([`Chains::has_room`], [`Edges::has_room`]).
    /// Answers how many of them there still are.
    pub fn clear(&mut self) -> Kept
        ensures empty { self.new ≡ record { stacks = []; interrupts = []; edges = []; before = [] } }
        ensures chains { result.chains < MOST_CHAINS }
        ensures words { result.words < MOST_WORDS }
    {
        self.stacks.begin();
        self.told.cut(0);
        self.edges.cut(0);
        self.before = LocksStart { edges: 0, told: 0 };
        make_room(&mut self.chains, &mut self.edges)
    }

    /// One more task, which holds nothing and is outside frames.
    pub fn grow(&mut self) -> Result<(), AllocError>
        ensures before { self.new.before ≡ self.old.before }
        ensures grown { OnOk result (self.new ≡ record self.old {
          stacks = self.old.stacks ++ [] ∷ [];
          interrupts = self.old.interrupts ++ fresh ∷ [];
        }) }
    {
        self.stacks.grow()
    }

    /// What the task holds, in all its frames.
    pub fn held(&self, task: u32) -> &[Held<'a>]
        requires { task < length self.now.stacks }
        ensures { holds_of result.now ≡ slice_index_or self.now.stacks task [] }
    {
        self.stacks.held(task)
    }

    /// The task's frames and flags.
    pub fn interrupts(&self, task: u32) -> Interrupts
        requires { task < length self.now.stacks }
        ensures { result ≡ slice_index_or self.now.interrupts task fresh }
    {
        self.stacks.interrupts(task)
    }

    /// The same, with what they make of an acquisition.
    pub fn context(&self, task: u32) -> &Context
        requires { task < length self.now.stacks }
        ensures { result.now ≡ slice_index_or self.now.interrupts task fresh }
    {
        self.stacks.context(task)
    }

    /// Tells the dependencies of a waiting acquisition of the class, from what the task holds in
    /// its innermost frame.
    pub fn tell(&mut self, task: u32, class: u32, line: u64) -> Result<(), AllocError>
        requires { task < length self.old.stacks }
        ensures before { self.new.before ≡ self.old.before }
        ensures told { OnOk result (Tells (map (λ hold. hold.class) (inner_of self.old task)) class line
            self.old self.new) }
    {
        if self.is_unlinked(task) {
            self.relink(task)?;
        }
        self.tell_linked(task, class, line)
    }

    /// Does the same, by the chain of the task's stack where that is known, and else by look-ups.
    fn tell_linked(&mut self, task: u32, class: u32, line: u64) -> Result<(), AllocError>
        requires { task < length self.old.stacks }
        ensures before { self.new.before ≡ self.old.before }
        ensures told { OnOk result (Tells (map (λ hold. hold.class) (inner_of self.old task)) class line
            self.old self.new) }
    {
        let stack = self.stacks.innermost(task);
        if stack.is_empty() {
            return Ok(());
        }
        let met = self.chains.len();
        let Some(chain) = linked(&mut self.chains, stack, class)? else {
            return self.edges.tell_to(self.alloc, None, stack, class, line);
        };
        if self.told.has(chain) {
            return Ok(());
        }
        learn(
            &mut self.chains,
            &mut self.edges,
            self.alloc,
            met,
            chain,
            stack,
            class,
        )?;
        let known = self.chains.masks(chain);
        self.edges.tell_to(self.alloc, known, stack, class, line)?;
        self.told.add(chain)
    }

    /// Whether the chain of the last lock of the task's innermost frame isn't known.
    fn is_unlinked(&self, task: u32) -> bool
        requires { task < length self.now.stacks }
        ensures { OnTrue result (start_now (slice_index_or self.now.interrupts task fresh)
            < length (slice_index_or self.now.stacks task [])) }
    {
        let start = self.stacks.context(task).start();
        is_unlinked(self.stacks.held(task), start)
    }

    /// Looks for the chain of the last lock of the task's innermost frame, and before it for those of the
    /// locks below: each is let go, from the top down, and held again on the way back.
    fn relink(&mut self, task: u32) -> Result<(), AllocError>
        requires task { task < length self.old.stacks }
        requires inner { start_now (slice_index_or self.old.interrupts task fresh)
            < length (slice_index_or self.old.stacks task []) }
        ensures before { self.new.before ≡ self.old.before }
        ensures same { OnOk result (self.new ≡ self.old) }
    {
        let held = self.stacks.held(task);
        let top = held.len() - 1;
        let last = held[top];
        self.stacks.truncate(task, top);
        if self.is_unlinked(task) {
            self.relink(task)?;
        }
        self.hold(task, last.lock, last.class)
    }

    /// The task acquired the lock.
    // Its one caller asks for it at each acquisition.
    #[inline(always)]
    pub fn hold(&mut self, task: u32, lock: Lock<'a>, class: u32) -> Result<(), AllocError>
        requires task { task < length self.old.stacks }
        requires room { length (slice_index_or self.old.stacks task []) < MOST_HELD }
        ensures before { self.new.before ≡ self.old.before }
        ensures held { OnOk result (self.new ≡ record self.old {
          stacks = slice_set self.old.stacks task (slice_index_or self.old.stacks task []
              ++ record { lock = plain_lock lock.entry; class = class } ∷ []);
        }) }
    {
        let stack = self.stacks.innermost(task);
        let chain = linked(&mut self.chains, stack, class)?;
        self.stacks.push(task, Held { lock, class, chain });
        Ok(())
    }

    /// A frame of the state opens over what the task holds.
    pub fn enter(&mut self, task: u32, state: State)
        requires task { task < length self.old.stacks }
        requires nests { nests_in (states_of (slice_index_or self.old.interrupts task fresh)) state
            ≡ true }
        ensures moved { ChangesInterrupts self.old self.new task }
        ensures entered { IsEntered state (length (slice_index_or self.old.stacks task []))
            (slice_index_or self.old.interrupts task fresh)
            (slice_index_or self.new.interrupts task fresh) }
    {
        let start = self.stacks.held(task).len();
        self.stacks.enter(task, state, start);
    }

    /// The task's innermost frame closes, in which it holds nothing.
    pub fn exit(&mut self, task: u32)
        requires task { task < length self.old.stacks }
        requires open { 0 < length (states_of (slice_index_or self.old.interrupts task fresh)) }
        requires empty { start_now (slice_index_or self.old.interrupts task fresh)
            ≡ length (slice_index_or self.old.stacks task []) }
        ensures moved { ChangesInterrupts self.old self.new task }
        ensures left { IsLeft (slice_index_or self.old.interrupts task fresh)
            (slice_index_or self.new.interrupts task fresh) }
    {
        self.stacks.exit(task);
    }

    /// The task's flag for the state goes on or off in its innermost frame.
    pub fn set(&mut self, task: u32, state: State, flag: Flag)
        requires task { task < length self.old.stacks }
        ensures moved { ChangesInterrupts self.old self.new task }
        ensures set { IsSet state (is_on flag) (slice_index_or self.old.interrupts task fresh)
            (slice_index_or self.new.interrupts task fresh) }
    {
        self.stacks.set(task, state, flag);
    }

    /// What the trace told: the dependencies that weren't there when it began.
    pub fn told_here(&self) -> &[NewEdges]
        ensures told { self.now.before ++ edges_of result.now ≡ self.now.edges }
        ensures low { All (λ t. IsBlock t.word.block) result.now }
    {
        let tellings = self.edges.tellings();
        &tellings[self.before.edges..]
    }

    /// The dependencies, of a trace and of those before it.
    pub fn edge_facts(&self) -> Result<Vec<EdgeFact>, AllocError>
        ensures { IfOk result (λ facts. facts.items ≡ self.now.edges) }
    {
        all_facts(self.alloc, self.edges.tellings())
    }
}
