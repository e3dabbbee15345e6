//! What all tasks of a trace are in and hold.
ghost use Rattle.std.specs.Prelude.{◌≡◌, ◌++◌, ◌∷◌, [], ℕ, List, All, IfOk, None, Ok, OnOk, Some, fold, map};
ghost use Rattle.ld_class.specs.Names.{AreDistinct, class_of_task, place_of};
ghost use Rattle.ld_trace.specs.Events.{plain_event, said_by};
ghost use Rattle.ld_trace.specs.Lines.{lines, text_of};
ghost use Rattle.ld_cut.specs.State.{after_any, event_in, events_in};
ghost use Rattle.std.specs.Option.{option_to_list};
ghost use Rattle.ld_cut.specs.Inner.Kept.{IsTold, stands, task_in, text_of_tasks};

use crate::task::Task;
use ld_class::{ClassName, Classes, MOST_NAMES};
use ld_replay::task_of;
use ld_trace::{Event, next_line, read_event, text};
use std::alloc::{AllocError, Global};
use std::marker::Model;

/// The tasks of a trace that had events.
#[derive(Drop)]
pub(crate) struct Tasks<'a> {
    /// Their names, each as that of a class without a subclass.
    names: Classes<'a>,
    /// The tasks, in the order of their names.
    tasks: Vec<Task<'a>>,
}

impl<'a> Model for Tasks<'a> {
    ghost use Rattle.std.specs.Prelude.{◌≡◌, List, map};
    ghost use Rattle.ld_class.specs.Names.{class_of_task};
    ghost use Rattle.ld_cut.specs.Inner.Kept.{KeptTask};

    ghost Value = { List KeptTask };

    ghost view = { λ t. t.tasks.items };

    ghost invariant = { λ t. t.names ≡ map (λ task. class_of_task task.name) t.tasks.items };
}

impl<'a> Tasks<'a> {
    /// None.
    pub fn new(alloc: Global) -> Tasks<'a>
        ensures { result ≡ [] }
    {
        Tasks {
            names: Classes::new(alloc),
            tasks: Vec::new(alloc),
        }
    }

    /// Passes these lines of the trace.
    ///
    /// # Errors
    ///
    /// Where a growth of memory was refused.
    pub fn pass(&mut self, alloc: Global, lines: &'a [u8]) -> Result<(), AllocError>
        requires { All IsTold self.old }
        ensures stand { OnOk result ((of : List ℕ) → stands (task_in self.new of)
            ≡ fold (after_any of) (stands (task_in self.old of)) (events_in lines.entry.now)) }
        ensures told { OnOk result (All IsTold self.new) }
    {
        let mut rest = lines;
        while let Some((line, others)) = next_line(rest) {
            self.pass_line(alloc, line)?;
            rest = others;
        }
        Ok(())
    }

    /// Passes a line.
    fn pass_line(&mut self, alloc: Global, line: &'a [u8]) -> Result<(), AllocError>
        requires one { lines line.now ≡ line.now ∷ [] }
        requires told { All IsTold self.old }
        ensures next { OnOk result ((of : List ℕ) → stands (task_in self.new of)
            ≡ fold (after_any of) (stands (task_in self.old of)) (option_to_list (event_in line.entry.now))) }
        ensures told { OnOk result (All IsTold self.new) }
    {
        match read_event(text(line)) {
            Ok(Some(event)) => self.step(alloc, event, line),
            Ok(None) => Ok(()),
            Err(_) => Ok(()),
        }
    }

    /// The trace's next event, which this line says.
    fn step(&mut self, alloc: Global, event: Event<'a>, line: &'a [u8]) -> Result<(), AllocError>
        requires one { lines line.now ≡ line.now ∷ [] }
        requires says { said_by (text_of line.now) ≡ Ok (Some (plain_event event)) }
        requires told { All IsTold self.old }
        ensures next { OnOk result ((of : List ℕ) → stands (task_in self.new of)
            ≡ after_any of (stands (task_in self.old of)) (plain_event event.entry)) }
        ensures told { OnOk result (All IsTold self.new) }
    {
        let id = self.place(alloc, task_of(&event))?;
        self.tasks[id].step(alloc, event, line)
    }

    /// The place of the task of this name, which is put behind the others if it had no event.
    fn place(&mut self, alloc: Global, name: &'a [u8]) -> Result<usize, AllocError>
        requires { All IsTold self.old }
        ensures same { (of : List ℕ) → task_in self.new of ≡ task_in self.old of }
        ensures told { All IsTold self.new }
        ensures place { IfOk result (λ id. place_of
            (map (λ task. class_of_task task.name) self.new) (class_of_task name.entry.now) ≡ Some id) }
    {
        match self.names.find(ClassName { name, sub: 0 }) {
            Some(id) => Ok(id as usize),
            None => self.add(alloc, name),
        }
    }

    /// Puts a task behind the others, none of which has its name, and answers its place.
    fn add(&mut self, alloc: Global, name: &'a [u8]) -> Result<usize, AllocError>
        requires new { place_of (map (λ task. class_of_task task.name) self.old)
            (class_of_task name.now) ≡ None }
        requires told { All IsTold self.old }
        ensures same { (of : List ℕ) → task_in self.new of ≡ task_in self.old of }
        ensures told { All IsTold self.new }
        ensures place { IfOk result (λ id. place_of
            (map (λ task. class_of_task task.name) self.new) (class_of_task name.entry.now) ≡ Some id) }
    {
        let count = self.tasks.len();
        // A stream has fewer lines.
        if count >= MOST_NAMES {
            return Err(AllocError);
        }
        self.names.intern(ClassName { name, sub: 0 })?;
        match self.tasks.push(Task::new(alloc, name)) {
            Ok(()) => Ok(count),
            Err(_refused) => {
                self.names.cut(count);
                Err(AllocError)
            }
        }
    }

    /// Writes the lines that have each task be in and hold what it does.
    ///
    /// # Errors
    ///
    /// Where a growth of memory was refused.
    pub fn write(&self, text: &mut Vec<u8>) -> Result<(), AllocError>
        ensures text { OnOk result (text.new.items ≡ text.old.items ++ text_of_tasks self.now) }
        ensures distinct { AreDistinct (map (λ task. class_of_task task.name) self.now) }
    {
        let _ = self.names.len();
        for task in &self.tasks {
            task.write(text)?;
        }
        Ok(())
    }
}
