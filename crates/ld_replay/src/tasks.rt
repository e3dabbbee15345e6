//! What all tasks of a trace have open, one event after another.
ghost use Rattle.std.specs.Prelude.{◌≡◌, ℕ, [], List, IfOk, OnOk, Some, map};
ghost use Rattle.ld_class.specs.Names.{class_of_task, place_of};
ghost use Rattle.ld_trace.specs.Events.{plain_event};
ghost use Rattle.ld_replay.specs.Inner.Task.{stepped, task_in};

use crate::task::{Task, task_of};
use ld_class::{ClassName, Classes, MOST_NAMES};
use ld_trace::Event;
use std::alloc::{AllocError, Global};
use std::marker::Model;

/// The tasks of a trace that had events.
#[derive(Drop)]
pub(crate) struct Tasks<'a> {
    /// Their names, each as that of a class without a subclass.
    names: Classes<'a>,
    /// What each has open, in the order of their names.
    tasks: Vec<Task<'a>>,
}

impl<'a> Model for Tasks<'a> {
    ghost use Rattle.std.specs.Prelude.{◌≡◌, List, map};
    ghost use Rattle.ld_class.specs.Names.{class_of_task};
    ghost use Rattle.ld_replay.specs.Inner.Task.{PlainTask};

    ghost Value = { List PlainTask };

    ghost view = { λ t. t.tasks.items };

    ghost invariant = { λ t. t.names ≡ map (λ task. class_of_task task.name) t.tasks.items };
}

impl<'a> Tasks<'a> {
    /// None.
    pub fn new(alloc: Global) -> Tasks<'a>
        ensures { result ≡ [] }
    {
        Tasks {
            names: Classes::new(alloc),
            tasks: Vec::new(alloc),
        }
    }

    /// The trace's next event, with so many events before it, at this line.
    ///
    /// # Errors
    ///
    /// Where a growth of memory was refused.
    pub fn step(
        &mut self,
        alloc: Global,
        event: Event<'a>,
        place: u64,
        line: u64,
    ) -> Result<(), AllocError>
        ensures { OnOk result ((name : List ℕ) → task_in self.new name
            ≡ stepped (task_in self.old name) (plain_event event.entry) place line) }
    {
        let id = self.place(alloc, task_of(&event))?;
        self.tasks[id].step(event, place, line)
    }

    /// The place of the task of this name, which is put behind the others where it had no event.
    fn place(&mut self, alloc: Global, name: &'a [u8]) -> Result<usize, AllocError>
        ensures same { (of : List ℕ) → task_in self.new of ≡ task_in self.old of }
        ensures place { IfOk result (λ id. place_of
            (map (λ task. class_of_task task.name) self.new) (class_of_task name.entry.now) ≡ Some id) }
    {
        match self.names.find(ClassName { name, sub: 0 }) {
            Some(id) => Ok(id as usize),
            None => self.add(alloc, name),
        }
    }

    /// Puts a task behind the others, none of which has its name, and answers its place.
    fn add(&mut self, alloc: Global, name: &'a [u8]) -> Result<usize, AllocError>
        requires { place_of (map (λ task. class_of_task task.name) self.old)
            (class_of_task name.now) ≡ None }
        ensures same { (of : List ℕ) → task_in self.new of ≡ task_in self.old of }
        ensures place { IfOk result (λ id. place_of
            (map (λ task. class_of_task task.name) self.new) (class_of_task name.entry.now) ≡ Some id) }
    {
        let count = self.tasks.len();
        // A stream has fewer lines.
        if count >= MOST_NAMES {
            return Err(AllocError);
        }
        self.names.intern(ClassName { name, sub: 0 })?;
        match self.tasks.push(Task::new(alloc, name)) {
            Ok(()) => Ok(count),
            Err(_refused) => {
                self.names.cut(count);
                Err(AllocError)
            }
        }
    }

    /// What the task of this name has open.
    ///
    /// # Errors
    ///
    /// Where a growth of memory was refused.
    pub fn task(&self, alloc: Global, name: &'a [u8]) -> Result<Task<'a>, AllocError>
        ensures { IfOk result (λ task. task ≡ task_in self.now name.entry.now) }
    {
        match self.names.find(ClassName { name, sub: 0 }) {
            Some(id) => self.tasks[id as usize].copied(alloc),
            None => Ok(Task::new(alloc, name)),
        }
    }
}
