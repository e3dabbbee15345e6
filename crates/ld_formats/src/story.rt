//! What stands behind a violation, as lines of a message.

use crate::text::{Names, Text};
use crate::words::{dependency_at, end_at, kind_meaning, state_word};
use ld_rows::{
    At, Class, Dependency, End, Frame, Handler, Held, Line, Place, Rows, Seen, Since, Use,
    Violation,
};
use ld_trace::State;
use std::alloc::AllocError;

/// How lines of a message are written in a format.
#[derive(Clone, Copy)]
pub(crate) struct Lines {
    pub(crate) names: Names,
    /// What stands between two lines.
    pub(crate) between: &'static str,
}

impl Lines {
    /// A name.
    pub(crate) fn name(&self, text: &mut Text, name: &[u8]) -> Result<(), AllocError> {
        match self.names {
            Names::Escaped(form) => text.name(form, name),
            Names::Said => text.message(name),
        }
    }

    /// A class: `name`, or `name/N` if it is a subclass.
    pub(crate) fn class(&self, text: &mut Text, class: Class<'_>) -> Result<(), AllocError> {
        self.name(text, class.name)?;
        text.subclass(class)
    }

    /// What a violation means, and each of its steps and ends where it was first seen.
    pub(crate) fn story(
        &self,
        text: &mut Text,
        rows: &Rows<'_>,
        violation: &Violation<'_>,
    ) -> Result<(), AllocError> {
        text.put(kind_meaning(violation.kind))?;
        for place in &violation.dependencies {
            if let Some(dependency) = dependency_at(rows, *place) {
                self.dependency(text, dependency)?;
            }
        }
        for end in [violation.safe, violation.exposed] {
            if let Some(end) = end_at(rows, end) {
                self.end(text, end)?;
            }
        }
        Ok(())
    }

    /// A dependency, with the locks that its task held.
    fn dependency(&self, text: &mut Text, dependency: &Dependency<'_>) -> Result<(), AllocError> {
        text.put(self.between)?;
        self.class(text, dependency.from)?;
        text.put(" -> ")?;
        self.class(text, dependency.to)?;
        text.put(": ")?;
        self.seen(text, &dependency.seen)
    }

    /// An end, with the handlers that its task was in, or since when they could interrupt.
    fn end(&self, text: &mut Text, end: &End<'_>) -> Result<(), AllocError> {
        text.put(self.between)?;
        self.used(text, end)?;
        text.put(": ")?;
        self.seen(text, &end.seen)?;
        match end.used {
            Use::Safe => self.handlers(text, &end.seen.handlers),
            Use::Exposed => {
                self.since(text, State::Hard, &end.hard)?;
                self.since(text, State::Soft, &end.soft)
            }
        }
    }

    /// How a class is used at an end.
    pub(crate) fn used(&self, text: &mut Text, end: &End<'_>) -> Result<(), AllocError> {
        match end.used {
            Use::Safe => {
                text.put(state_word(end.state))?;
                text.put(" handlers acquire ")?;
                self.class(text, end.class)
            }
            Use::Exposed => {
                self.class(text, end.class)?;
                text.put(" is held where ")?;
                text.put(state_word(end.state))?;
                text.put(" handlers can interrupt")
            }
        }
    }

    /// Where something was first seen, by which task, and what it held.
    fn seen(&self, text: &mut Text, seen: &Seen<'_>) -> Result<(), AllocError> {
        self.by(text, seen)?;
        self.line(text, &seen.line)?;
        for held in &seen.held {
            self.held(text, held)?;
        }
        Ok(())
    }

    /// The trace and the task.
    pub(crate) fn by(&self, text: &mut Text, seen: &Seen<'_>) -> Result<(), AllocError> {
        self.name(text, seen.line.at.label)?;
        text.put(", task ")?;
        self.name(text, seen.task)?;
        text.put(", ")
    }

    /// A lock that is held.
    fn held(&self, text: &mut Text, held: &Held<'_>) -> Result<(), AllocError> {
        text.put(self.between)?;
        text.put("  holds ")?;
        self.class(text, held.class)?;
        text.put(", ")?;
        self.line(text, &held.line)
    }

    /// The handlers that a task is in.
    fn handlers(&self, text: &mut Text, handlers: &[Handler<'_>]) -> Result<(), AllocError> {
        for handler in handlers {
            text.put(self.between)?;
            text.put("  in a ")?;
            text.put(state_word(handler.state))?;
            text.put(" handler, ")?;
            self.line(text, &handler.line)?;
        }
        Ok(())
    }

    /// Since when interrupts are enabled.
    fn since(&self, text: &mut Text, state: State, since: &Since<'_>) -> Result<(), AllocError> {
        if let Since::Off = since {
            return Ok(());
        }
        text.put(self.between)?;
        text.put("  ")?;
        text.put(state_word(state))?;
        match since {
            Since::Line(line) => {
                text.put(" on since ")?;
                self.line(text, line)
            }
            _ => text.put(" on since the trace began"),
        }
    }

    /// A line of a trace, and where it comes from.
    pub(crate) fn line(&self, text: &mut Text, line: &Line<'_>) -> Result<(), AllocError> {
        self.at(text, &line.at)?;
        text.put(": ")?;
        self.name(text, line.text)?;
        match &line.place {
            Some(Place::Called(frames)) => self.frames(text, frames),
            Some(Place::Recorded(number)) => {
                text.put(", line ")?;
                text.number(*number)?;
                text.put(" of the recording")
            }
            None => Ok(()),
        }
    }

    /// Where a line stands.
    pub(crate) fn at(&self, text: &mut Text, at: &At<'_>) -> Result<(), AllocError> {
        self.name(text, at.path)?;
        text.put(":")?;
        text.number(at.file_line)
    }

    /// Calls, the innermost first.
    fn frames(&self, text: &mut Text, frames: &[Frame]) -> Result<(), AllocError> {
        for frame in frames {
            text.put(self.between)?;
            text.put("    ")?;
            self.frame(text, frame)?;
        }
        Ok(())
    }

    /// A call: `FUNCTION at FILE:LINE`.
    pub(crate) fn frame(&self, text: &mut Text, frame: &Frame) -> Result<(), AllocError> {
        self.name(text, &frame.function)?;
        text.put(" at ")?;
        self.name(text, &frame.file)?;
        if let Some(line) = frame.line {
            text.put(":")?;
            text.number(line)?;
        }
        Ok(())
    }
}
