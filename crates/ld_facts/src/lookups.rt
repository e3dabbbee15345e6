//! The classes that a scan knows, and the tasks of a trace, which get their numbers at their first events.
ghost use Rattle.std.specs.Prelude.{◌≡◌, ◌↔◌, ℕ, Some, ◌≤◌, None, Err, length, IfOk};
ghost use Rattle.ld_class.specs.Names.{IsNameAt, place_of, plain_class, place_of_task};
ghost use Rattle.ld_facts.specs.Inner.Scan.{AreMany, HasTask, StandsOn};
ghost use Rattle.ld_rules.specs.declared.fault.TraceFault.{TraceFault};
ghost use Rattle.ld_rules.specs.declared.outcome.TheConstants.{MOST_TASKS};

use crate::scan::{Scan, Stop};
use ld_class::ClassName;
use ld_rules::{MOST_TASKS, TraceFault};

impl<'a> Scan<'a> {
    /// The number by which the class is known, or `None` where it isn't.
    // Most classes are where the hint says, and are compared where this is called.
    #[inline(always)]
    pub(crate) fn find(&mut self, name: ClassName<'a>) -> Option<u32>
        ensures place { result ≡ place_of self.old.classes (plain_class name.entry) }
        ensures exact { (id : ℕ)
            → (result ≡ Some id) ↔ IsNameAt self.old.classes id (plain_class name.entry) }
        ensures same { self.new ≡ self.old }
    {
        let hint = self.locks.hint(name);
        if self.classes.is_at(hint, name) {
            return Some(hint);
        }
        self.look_up(name)
    }

    /// The same, of a class that isn't where the hint says.
    #[inline(never)]
    fn look_up(&mut self, name: ClassName<'a>) -> Option<u32>
        ensures place { result ≡ place_of self.old.classes (plain_class name.entry) }
        ensures exact { (id : ℕ)
            → (result ≡ Some id) ↔ IsNameAt self.old.classes id (plain_class name.entry) }
        ensures same { self.new ≡ self.old }
    {
        let class = self.classes.find(name)?;
        self.locks.note(name, class);
        Some(class)
    }
}

impl<'a> Scan<'a> {
    /// The number of the task, which may be new.
    // Most tasks are that of the line before, and are found where this is called.
    #[inline(always)]
    pub(crate) fn task(&mut self, name: &'a [u8]) -> Result<u32, Stop>
        requires many { AreMany self.old }
        ensures task { IfOk result (λ id. HasTask self.old name.entry.now id self.new) }
        ensures fault { (fault : TraceFault) → result ≡ Err (Stop.Fault fault) →
            (fault ≡ TraceFault.TooManyTasks)
            × (place_of_task self.old.tasks name.entry.now ≡ None)
            × (MOST_TASKS ≤ length self.old.tasks) }
        ensures first { StandsOn self.old self.new }
    {
        if let Some(task) = self.tasks.find(name) {
            return Ok(task);
        }
        self.new_task(name)
    }

    /// The number of a task that is new to the trace.
    #[inline(never)]
    fn new_task(&mut self, name: &'a [u8]) -> Result<u32, Stop>
        requires many { AreMany self.old }
        requires new { place_of_task self.old.tasks name.now ≡ None }
        ensures task { IfOk result (λ id. HasTask self.old name.entry.now id self.new) }
        ensures fault { (fault : TraceFault) → result ≡ Err (Stop.Fault fault) →
            (fault ≡ TraceFault.TooManyTasks)
            × (place_of_task self.old.tasks name.entry.now ≡ None)
            × (MOST_TASKS ≤ length self.old.tasks) }
        ensures first { StandsOn self.old self.new }
    {
        if self.tasks.len() >= MOST_TASKS {
            return Err(Stop::Fault(TraceFault::TooManyTasks));
        }
        self.locks.grow()?;
        Ok(self.tasks.intern(name)?)
    }
}
