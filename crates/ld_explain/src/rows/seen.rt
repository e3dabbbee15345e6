//! Rows of dependencies and of ends, each where it was first seen.
ghost use Rattle.std.specs.Prelude.{◌≡◌, All, IfOk, List};
ghost use Rattle.ld_trace.specs.Sources.{PlainSource};
ghost use Rattle.ld_explain.specs.Rows.{IsFirstRow};
ghost use Rattle.ld_explain.specs.Steps.{IsAtFirst};

use crate::readers::{Held as HeldLock, class_of as class_of_hold, holds_in, innermost};
use crate::rows::lines::Lines;
use crate::rows::needed::NeededEnd;
use crate::rows::violations::class_of;
use crate::sightings::Sightings;
use crate::violations::Step;
use ld_overview::{Book, ClassName, Witness};
use ld_replay::{Before, Flag, task_of};
use ld_rows::{Class, Dependency, End, Handler, Held, Seen, Since, Use};
use std::alloc::AllocError;

/// What lines say, and what their tasks have open.
#[derive(Clone, Copy)]
pub struct Telling<'t, 'a> {
    pub lines: &'t Lines<'t, 'a>,
    pub sightings: &'t Sightings<'a>,
}

/// These dependencies, in turn.
pub fn dependency_rows<'a>(
    telling: &Telling<'_, 'a>,
    steps: &[Step<'a>],
) -> Result<Vec<Dependency<'a>>, AllocError>
    ensures { (sources : List PlainSource) → All (IsAtFirst sources) steps.now
        → IfOk result (λ rows. All (IsFirstRow sources) rows.items) }
{
    let mut rows = Vec::with_capacity(telling.lines.alloc, steps.len())?;
    for step in steps {
        rows.push(telling.dependency(step)?)?;
    }
    Ok(rows)
}

/// These ends of a book's violations, in turn.
pub fn end_rows<'a>(
    telling: &Telling<'_, 'a>,
    book: &Book<'a>,
    ends: &[NeededEnd<'a>],
) -> Result<Vec<End<'a>>, AllocError> {
    let mut rows = Vec::with_capacity(telling.lines.alloc, ends.len())?;
    for end in ends {
        rows.push(telling.end(book, end)?)?;
    }
    Ok(rows)
}

/// The usage characters of a class.
fn marks_of(book: &Book<'_>, class: ClassName<'_>) -> [u8; 4] {
    match book.usage(class) {
        Some(usage) => usage.bits.marks(),
        None => *b"....",
    }
}

impl<'t, 'a> Telling<'t, 'a> {
    /// A dependency where it was first seen.
    fn dependency(&self, step: &Step<'a>) -> Result<Dependency<'a>, AllocError>
        ensures { IfOk result (λ row. (sources : List PlainSource)
            → IsAtFirst sources step.now → IsFirstRow sources row) }
    {
        let seen = self.step(step)?;
        Ok(Dependency {
            from: class_of(step.dependency.from),
            to: class_of(step.dependency.to),
            seen,
        })
    }

    /// Where a dependency was first seen, with the locks that its task held there in the same frame.
    fn step(&self, step: &Step<'a>) -> Result<Seen<'a>, AllocError>
        ensures { IfOk result (λ seen. seen.line.at.line ≡ step.now.first.line) }
    {
        let before = self.sightings.at(step.first);
        let held = match before {
            Some(before) => holds_in(self.lines.alloc, before.task.holds(), innermost(before))?,
            None => Vec::new(self.lines.alloc),
        };
        self.seen(step.first, before, &held)
    }

    /// An end where it was first seen.
    fn end(&self, book: &Book<'a>, end: &NeededEnd<'a>) -> Result<End<'a>, AllocError> {
        let before = self.sightings.at(end.at);
        let held = self.held_at(before, end)?;
        let seen = self.seen(end.at, before, &held)?;
        let number = end.at.number;
        let (hard, soft) = match before {
            Some(before) => {
                let flags = before.flags();
                (flags.hard, flags.soft)
            }
            None => (Flag::Off, Flag::Off),
        };
        let hard = self.since(number, hard)?;
        let soft = self.since(number, soft)?;
        Ok(End {
            class: class_of(end.class),
            state: end.state,
            used: end.used,
            marks: marks_of(book, end.class),
            seen,
            hard,
            soft,
        })
    }

    /// The locks of its class that are held at an exposed end, in whatever frame; none at a safe one.
    fn held_at(
        &self,
        before: Option<&Before<'a>>,
        end: &NeededEnd<'a>,
    ) -> Result<Vec<HeldLock<'a>>, AllocError> {
        let mut held = Vec::new(self.lines.alloc);
        match (before, end.used) {
            (Some(before), Use::Exposed) => {
                for hold in before.task.holds() {
                    if class_of_hold(hold) == end.class {
                        held.push(HeldLock::of(hold))?;
                    }
                }
            }
            _ => {}
        }
        Ok(held)
    }

    /// A line at which something was seen, with these locks and the handlers that its task was in.
    fn seen(
        &self,
        at: Witness,
        before: Option<&Before<'a>>,
        held: &[HeldLock<'a>],
    ) -> Result<Seen<'a>, AllocError>
        ensures { IfOk result (λ seen. seen.line.at.line ≡ at.line) }
    {
        let line = self.lines.line(at)?;
        let held = self.held_rows(at.number, held)?;
        let handlers = self.handler_rows(at.number, before)?;
        Ok(Seen {
            line,
            task: task_at(before),
            held,
            handlers,
        })
    }

    fn held_rows(&self, number: u64, held: &[HeldLock<'a>]) -> Result<Vec<Held<'a>>, AllocError> {
        let mut rows = Vec::with_capacity(self.lines.alloc, held.len())?;
        for one in held {
            let line = one.line;
            let line = self.lines.line(Witness { number, line })?;
            rows.push(Held {
                class: Class {
                    name: one.lock.class,
                    sub: one.sub,
                },
                instance: one.lock.instance,
                is_written: one.is_written,
                line,
            })?;
        }
        Ok(rows)
    }

    fn handler_rows(
        &self,
        number: u64,
        before: Option<&Before<'a>>,
    ) -> Result<Vec<Handler<'a>>, AllocError> {
        let mut rows = Vec::new(self.lines.alloc);
        if let Some(before) = before {
            for handler in before.task.handlers() {
                let line = handler.line;
                let line = self.lines.line(Witness { number, line })?;
                rows.push(Handler {
                    state: handler.state,
                    line,
                })?;
            }
        }
        Ok(rows)
    }

    /// Since when interrupts are enabled.
    fn since(&self, number: u64, flag: Flag) -> Result<Since<'a>, AllocError> {
        match flag {
            Flag::Off => Ok(Since::Off),
            Flag::FromStart => Ok(Since::Start),
            Flag::Since(line) => Ok(Since::Line(self.lines.line(Witness { number, line })?)),
        }
    }
}

/// The task of a line.
fn task_at<'a>(before: Option<&Before<'a>>) -> &'a [u8] {
    match before {
        Some(before) => task_of(&before.event),
        None => &[],
    }
}
