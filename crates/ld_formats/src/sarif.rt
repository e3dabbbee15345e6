//! SARIF 2.1.0: a rule for each kind, a result for each violation.

use crate::files::{Spot, Stripped, source_of, spot_of, traced};
use crate::story::Lines;
use crate::text::{Names, Text};
use crate::words::{
    KINDS, dependency_at, end_at, kind_meaning, kind_place, kind_title, kind_word, line_of,
    state_word, untold, write_title,
};
use ld_escape::Form;
use ld_rows::{Class, Dependency, End, Frame, Held, Line, Place, Refused, Rows, Seen, Violation};
use std::alloc::{AllocError, Global};

/// How a message is written: as SARIF reads it, a brace of a name is doubled, and a bracket has a backslash before it.
const MESSAGE: Lines = Lines {
    names: Names::Said,
    between: "\\n",
};

/// The report as a log of SARIF, of a tool of this version. A refused trace is a notification. The flows of a
/// violation are its steps and its ends. What tells it from others is its kind, its state and its classes. Paths lose
/// their beginning.
///
/// # Errors
///
/// `AllocError` if a growth of memory was refused.
pub(crate) fn sarif_text(
    alloc: Global,
    rows: &Rows<'_>,
    version: &str,
    stripped: &Stripped<'_>,
) -> Result<Vec<u8>, AllocError> {
    let mut text = Text::new(alloc);
    text.put(
        "{\"$schema\":\"https://json.schemastore.org/sarif-2.1.0.json\",\"version\":\"2.1.0\",\"runs\":[{\n",
    )?;
    text.put("\"tool\":{\"driver\":{\"name\":\"lockgraph\",\"version\":\"")?;
    text.name(Form::Json, version.as_bytes())?;
    text.put("\",\"rules\":[")?;
    write_rules(&mut text)?;
    text.put("]}},\n\"columnKind\":\"unicodeCodePoints\",\n")?;
    text.put("\"invocations\":[{\"executionSuccessful\":true,\"toolExecutionNotifications\":[")?;
    let mut writer = Writer {
        text,
        rows,
        stripped: *stripped,
    };
    writer.notifications()?;
    writer.text.put("]}],\n\"results\":[")?;
    writer.results()?;
    writer.text.put("]\n}]}\n")?;
    Ok(writer.text.into_bytes())
}

/// The rules.
fn write_rules(text: &mut Text) -> Result<(), AllocError> {
    for kind in KINDS {
        write_comma(text, kind_place(kind))?;
        text.put("\n{\"id\":\"")?;
        text.put(kind_word(kind))?;
        text.put("\",\"shortDescription\":{\"text\":\"")?;
        text.put(kind_title(kind))?;
        text.put("\"},\"fullDescription\":{\"text\":\"")?;
        text.put(kind_meaning(kind))?;
        text.put("\"},\"help\":{\"text\":\"")?;
        text.put(kind_meaning(kind))?;
        text.put("\"},\"defaultConfiguration\":{\"level\":\"error\"}}")?;
    }
    Ok(())
}

/// What stands before an element of a list that isn't its first.
fn write_comma(text: &mut Text, place: u64) -> Result<(), AllocError> {
    if place > 0 {
        text.put(",")?;
    }
    Ok(())
}

/// The log so far, and what it is about.
#[derive(Drop)]
struct Writer<'r, 'a, 'p> {
    text: Text,
    rows: &'r Rows<'a>,
    stripped: Stripped<'p>,
}

impl Writer<'_, '_, '_> {
    /// Refused traces, and what isn't told.
    fn notifications(&mut self) -> Result<(), AllocError> {
        for (place, refused) in self.rows.refused.iter().enumerate() {
            write_comma(&mut self.text, place as u64)?;
            self.notification(refused)?;
        }
        let mut place = self.rows.refused.len() as u64;
        for (what, count) in untold(self.rows) {
            if count > 0 {
                write_comma(&mut self.text, place)?;
                self.note(what, count)?;
                place = place.saturating_add(1);
            }
        }
        Ok(())
    }

    /// What isn't told, and how many of it there are.
    fn note(&mut self, what: &'static str, count: u64) -> Result<(), AllocError> {
        self.text.put(
            "\n{\"level\":\"note\",\"descriptor\":{\"id\":\"untold\"},\"message\":{\"text\":\"",
        )?;
        self.text.put(what)?;
        self.text.put(": ")?;
        self.text.number(count)?;
        self.text.put("\"}}")
    }

    fn notification(&mut self, refused: &Refused<'_>) -> Result<(), AllocError> {
        self.text.put(
            "\n{\"level\":\"warning\",\"descriptor\":{\"id\":\"refused\"},\"message\":{\"text\":\"",
        )?;
        MESSAGE.name(&mut self.text, refused.line.at.label)?;
        self.text.put(" is refused: ")?;
        MESSAGE.name(&mut self.text, refused.fault.as_bytes())?;
        self.text.put("\"},\"locations\":[{")?;
        let spot = traced(&refused.line.at, &self.stripped);
        self.spot(&spot)?;
        self.text.put("}]}")
    }

    /// Violations.
    fn results(&mut self) -> Result<(), AllocError> {
        for (place, violation) in self.rows.violations.iter().enumerate() {
            write_comma(&mut self.text, place as u64)?;
            self.result(violation)?;
        }
        Ok(())
    }

    fn result(&mut self, violation: &Violation<'_>) -> Result<(), AllocError> {
        self.text.put("\n{\"ruleId\":\"")?;
        self.text.put(kind_word(violation.kind))?;
        self.text.put("\",\"ruleIndex\":")?;
        self.text.number(kind_place(violation.kind))?;
        self.text
            .put(",\"level\":\"error\",\"message\":{\"text\":\"")?;
        MESSAGE.name(&mut self.text, violation.text)?;
        self.text.put("\\n")?;
        MESSAGE.story(&mut self.text, self.rows, violation)?;
        self.text.put("\"},\"locations\":[{")?;
        let spot = match line_of(self.rows, violation) {
            Some(line) => spot_of(line, &self.stripped),
            None => traced(&violation.at, &self.stripped),
        };
        self.spot(&spot)?;
        self.text
            .put("}],\"partialFingerprints\":{\"lockViolation/v1\":\"")?;
        write_title(&mut self.text, Form::Json, violation)?;
        self.text.put("\"},\"codeFlows\":[{\"threadFlows\":[")?;
        self.flows(violation)?;
        self.text.put("]}]}")
    }

    /// A flow for each dependency, and for each end.
    fn flows(&mut self, violation: &Violation<'_>) -> Result<(), AllocError> {
        let mut count = 0;
        for place in &violation.dependencies {
            if let Some(dependency) = dependency_at(self.rows, *place) {
                write_comma(&mut self.text, count)?;
                self.step(dependency)?;
                count = 1;
            }
        }
        for end in [violation.safe, violation.exposed] {
            if let Some(end) = end_at(self.rows, end) {
                write_comma(&mut self.text, count)?;
                self.end(end)?;
                count = 1;
            }
        }
        Ok(())
    }

    /// The flow of a dependency: the locks that its task holds, and the one that it acquires.
    fn step(&mut self, dependency: &Dependency<'_>) -> Result<(), AllocError> {
        self.text.put("\n{\"message\":{\"text\":\"")?;
        MESSAGE.class(&mut self.text, dependency.from)?;
        self.text.put(" -> ")?;
        MESSAGE.class(&mut self.text, dependency.to)?;
        self.text.put("\"},\"locations\":[")?;
        self.holds(&dependency.seen.held)?;
        self.acquired(&dependency.seen, dependency.to)
    }

    /// The flow of an end: the locks of its class that are held, the handlers, and the line itself.
    fn end(&mut self, end: &End<'_>) -> Result<(), AllocError> {
        self.text.put("\n{\"message\":{\"text\":\"")?;
        MESSAGE.used(&mut self.text, end)?;
        self.text.put("\"},\"locations\":[")?;
        self.holds(&end.seen.held)?;
        for handler in &end.seen.handlers {
            self.text
                .put("{\"location\":{\"message\":{\"text\":\"in a ")?;
            self.text.put(state_word(handler.state))?;
            self.text.put(" handler\"},")?;
            self.place(&handler.line)?;
            self.text.put(",")?;
        }
        self.acquired(&end.seen, end.class)
    }

    /// Locks that are held, each with a comma behind it.
    fn holds(&mut self, held: &[Held<'_>]) -> Result<(), AllocError> {
        for held in held {
            self.text
                .put("{\"location\":{\"message\":{\"text\":\"holds ")?;
            MESSAGE.class(&mut self.text, held.class)?;
            self.text.put("\"},")?;
            self.place(&held.line)?;
            self.text.put(",")?;
        }
        Ok(())
    }

    /// The last line of a flow, and its end.
    fn acquired(&mut self, seen: &Seen<'_>, class: Class<'_>) -> Result<(), AllocError> {
        self.text.put("{\"location\":{\"message\":{\"text\":\"")?;
        MESSAGE.class(&mut self.text, class)?;
        self.text.put(": ")?;
        MESSAGE.by(&mut self.text, seen)?;
        MESSAGE.at(&mut self.text, &seen.line.at)?;
        self.text.put("\"},")?;
        self.place(&seen.line)?;
        self.text.put("]}")
    }

    /// Where a line comes from, and the end of its location; then the calls that led there, and the end of its step.
    fn place(&mut self, line: &Line<'_>) -> Result<(), AllocError> {
        let spot = spot_of(line, &self.stripped);
        self.spot(&spot)?;
        self.text.put("}")?;
        if let Some(Place::Called(frames)) = &line.place {
            self.text.put(",\"stack\":{\"frames\":[")?;
            for (place, frame) in frames.iter().enumerate() {
                write_comma(&mut self.text, place as u64)?;
                self.frame(frame)?;
            }
            self.text.put("]}")?;
        }
        self.text.put("}")
    }

    /// A call.
    fn frame(&mut self, frame: &Frame) -> Result<(), AllocError> {
        self.text.put("{\"location\":{\"logicalLocations\":[{\"kind\":\"function\",\"name\":\"")?;
        self.text.name(Form::Json, &frame.function)?;
        self.text.put("\"}]")?;
        if let Some(spot) = source_of(frame, &self.stripped) {
            self.text.put(",")?;
            self.spot(&spot)?;
        }
        self.text.put("}}")
    }

    /// A place in a file. An absolute path is a URI of its own.
    fn spot(&mut self, spot: &Spot<'_>) -> Result<(), AllocError> {
        self.text
            .put("\"physicalLocation\":{\"artifactLocation\":{\"uri\":\"")?;
        if spot.file.starts_with(b"/") {
            self.text.put("file://")?;
        }
        self.text.name(Form::Uri, spot.file)?;
        self.text.put("\"},\"region\":{\"startLine\":")?;
        self.text.number(spot.line.max(1))?;
        self.text.put("}}")
    }
}
