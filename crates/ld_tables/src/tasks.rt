//! Names of tasks, which are met once for many traces.
ghost use Rattle.std.specs.Prelude.{◌≡◌, ◌<◌, ◌+◌, [], false, length, nat_eq, IfNone, IfOk, IfSome, OnOk, OnErr};
ghost use Rattle.std.specs.List.{list_any, position};
ghost use Rattle.ld_class.specs.Names.{AreDistinctTasks, IsNameAt, IsTaskAt, class_of_task};
ghost use Rattle.ld_class.specs.Names.{place_of_task, with_name, with_task};
ghost use Rattle.ld_class.specs.declared.names.TheConstants.{MOST_NAMES};
ghost use Rattle.ld_tables.specs.declared.tasks.TheConstants.{MOST_KNOWN_TASKS};

use crate::hints::Hints;
use crate::sparse_set::SparseSet;
use ld_class::{ClassName, Classes};
use std::alloc::{AllocError, Global};
use std::marker::Model;

/// How many tasks of earlier traces stay known at most.
pub const MOST_KNOWN_TASKS: usize = 1 << 16;

// Clauses cite the constant, so they would hold with any other number that fits.
const _: () = prove!(MOST_KNOWN_TASKS == 65_536);

/// The names of the tasks of a trace, in the order in which each was first interned.
///
/// Names that earlier traces had stay known, so that a task that comes again takes no memory, and none
/// is hashed that is the one of the call before.
#[derive(Drop)]
pub struct TaskNames<'a> {
    /// All names that were met, each as that of a class, without a subclass.
    known: Classes<'a>,
    /// The trace's own, by their places among those.
    here: SparseSet,
    /// The place among those known that was answered last. It may be past the end, and says nothing then.
    last: u32,
    /// Where others were found last.
    hints: Hints,
}

impl<'a> Model for TaskNames<'a> {
    ghost use Rattle.std.specs.Prelude.{List, ℕ};
    ghost use Rattle.ld_tables.specs.Inner.Tasks.{AreTasksAmong, tasks_at};
    ghost use Rattle.ld_tables.specs.declared.tasks.TheConstants.{MOST_KNOWN_TASKS};

    ghost Value = { List (List ℕ) };

    ghost view = { λ t. tasks_at t.known t.here };

    // However many traces there were, a bounded number of names is kept of them.
    ghost invariant = { λ t. AreTasksAmong MOST_KNOWN_TASKS t.known t.here };
}

impl<'a> TaskNames<'a> {
    /// No names. It takes no memory until the first one is interned.
    pub fn new(alloc: Global) -> TaskNames<'a>
        ensures { result ≡ [] }
    {
        TaskNames {
            known: Classes::new(alloc),
            here: SparseSet::new(alloc),
            last: 0,
            hints: Hints::new(),
        }
    }

    /// The number of names.
    pub fn len(&self) -> usize
        ensures len { result ≡ length self.now }
        ensures distinct { AreDistinctTasks self.now }
    {
        self.here.len()
    }

    /// The place of `name`, or `None` where it is not there.
    // Most names are that of the call before, and are compared where this is called.
    #[inline(always)]
    pub fn find(&mut self, name: &[u8]) -> Option<u32>
        ensures same { self.new ≡ self.old }
        ensures place { result ≡ place_of_task self.old name.now }
        ensures here { IfSome result (λ id. IsTaskAt self.old id name.now) }
    {
        if self.known.is_at(self.last, ClassName { name, sub: 0 }) {
            return place_of_number(&self.here, self.last);
        }
        self.hint(name)
    }

    /// The same, of a name that isn't that of the call before: where it was found last is asked first.
    #[inline(never)]
    fn hint(&mut self, name: &[u8]) -> Option<u32>
        ensures same { self.new ≡ self.old }
        ensures place { result ≡ place_of_task self.old name.now }
        ensures here { IfSome result (λ id. IsTaskAt self.old id name.now) }
    {
        let hint = self.hints.of(ClassName { name, sub: 0 });
        if self.known.is_at(hint, ClassName { name, sub: 0 }) {
            self.last = hint;
            return place_of_number(&self.here, hint);
        }
        self.look_up(name)
    }

    /// The same, of a name that isn't where the hint says.
    #[inline(never)]
    fn look_up(&mut self, name: &[u8]) -> Option<u32>
        ensures same { self.new ≡ self.old }
        ensures place { result ≡ place_of_task self.old name.now }
        ensures here { IfSome result (λ id. IsTaskAt self.old id name.now) }
    {
        let known = self.known.find(ClassName { name, sub: 0 })?;
        self.last = known;
        self.hints.note(ClassName { name, sub: 0 }, known);
        place_of_number(&self.here, known)
    }

    /// The place of `name`, which is put last where it is new.
    ///
    /// `AllocError` where it is new and the memory for it was refused.
    pub fn intern(&mut self, name: &'a [u8]) -> Result<u32, AllocError>
        requires { length self.old + MOST_KNOWN_TASKS < MOST_NAMES }
        ensures names { OnOk result (self.new ≡ with_task self.old name.entry.now) }
        ensures refused { OnErr result (self.new ≡ self.old) }
        ensures place { IfOk result (λ id. IsTaskAt self.new id name.entry.now) }
    {
        let count = self.known.len();
        let number = learn(&mut self.known, self.last, name)?;
        self.last = number;
        if let Some(place) = place_of_number(&self.here, number) {
            return Ok(place);
        }
        if let Err(refused) = self.here.add(number) {
            self.known.cut(count);
            return Err(refused);
        }
        Ok(self.here.place(number))
    }

    /// Takes all names away. The memory stays for later ones; and so does what is known of the names,
    /// while these are few.
    pub fn clear(&mut self)
        ensures { self.new ≡ [] }
    {
        self.here.clear();
        if self.known.len() > MOST_KNOWN_TASKS {
            self.known.cut(0);
        }
    }
}

/// The place of a number among those of the trace, or `None` where it is not there.
fn place_of_number(here: &SparseSet, number: u32) -> Option<u32>
    ensures place { result ≡ position (nat_eq number) here.now }
    ensures absent { IfNone result (list_any (nat_eq number) here.now ≡ false) }
{
    if !here.has(number) {
        return None;
    }
    Some(here.place(number))
}

/// The place of a task among those that are known, which is put last where it is new. The one at `last` is
/// asked first.
///
/// `AllocError` where it is new and the memory for it was refused.
fn learn<'a>(known: &mut Classes<'a>, last: u32, name: &'a [u8]) -> Result<u32, AllocError>
    requires { length known.old < MOST_NAMES }
    ensures names { OnOk result (known.new ≡ with_name known.old (class_of_task name.entry.now)) }
    ensures refused { OnErr result (known.new ≡ known.old) }
    ensures place { IfOk result (λ id. IsNameAt known.new id (class_of_task name.entry.now)) }
{
    let task = ClassName { name, sub: 0 };
    if known.is_at(last, task) {
        return Ok(last);
    }
    known.intern(task)
}
