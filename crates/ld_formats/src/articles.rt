//! The violations of a page, by their groups.

use crate::html::LINES;
use crate::picture::write_picture;
use crate::snippet::write_snippet;
use crate::text::Text;
use crate::words::{
    KINDS, dependency_at, end_at, kind_meaning, kind_word, state_word, write_title,
};
use ld_escape::Form;
use ld_rows::{Common, Dependency, End, Group, Line, Place, Rows, Seen, Since, Use, Violation};
use ld_sources::Sources;
use ld_trace::State;
use std::alloc::{AllocError, Global};

/// Writes the violations, if there is one.
pub(crate) fn write_violations(
    alloc: Global,
    text: &mut Text,
    rows: &Rows<'_>,
    sources: &Sources<'_>,
) -> Result<(), AllocError> {
    if rows.violations.is_empty() {
        return Ok(());
    }
    text.put(
        "<h2>Violations</h2>\n<div class=\"filter scripted\" hidden><input type=\"search\" id=\"find\" placeholder=\"A class, a task, a file\" aria-label=\"Find violations\"><span id=\"kinds\">",
    )?;
    for kind in KINDS {
        text.put("<label><input type=\"checkbox\" checked value=\"")?;
        text.put(kind_word(kind))?;
        text.put("\"> ")?;
        text.put(kind_word(kind))?;
        text.put("</label> ")?;
    }
    text.put("</span><span>shown: <output id=\"shown\"></output></span></div>\n")?;
    let mut articles = Articles {
        text,
        rows,
        sources,
        told: vec![in alloc; false; rows.dependencies.len()]?,
    };
    for (place, group) in rows.groups.iter().enumerate() {
        articles.group(group, place as u64)?;
    }
    Ok(())
}

/// The violations so far.
#[derive(Drop)]
struct Articles<'t, 'r, 'a> {
    text: &'t mut Text,
    rows: &'r Rows<'a>,
    sources: &'r Sources<'r>,
    /// The dependencies that were told.
    told: Vec<bool>,
}

impl Articles<'_, '_, '_> {
    /// A group, and the dependency that more of it have than any other.
    fn group(&mut self, group: &Group, place: u64) -> Result<(), AllocError> {
        self.text.put("<section class=\"group\">\n<h3>Group ")?;
        self.text.number(place.saturating_add(1))?;
        self.text.put("</h3>\n")?;
        if group.violations.len() > 1 {
            self.shared(group)?;
        }
        for place in &group.violations {
            if let Some(violation) = self.rows.violations.get(*place) {
                self.violation(violation, *place as u64)?;
            }
        }
        self.text.put("</section>\n")
    }

    /// What the violations of a group share.
    fn shared(&mut self, group: &Group) -> Result<(), AllocError> {
        self.text.put("<p>Violations that share dependencies: ")?;
        self.text.number(group.violations.len() as u64)?;
        self.text.put(".")?;
        if let Some(most) = group.most {
            if let Some(dependency) = dependency_at(self.rows, most.dependency) {
                self.text.put(" Of them ")?;
                self.text.number(most.violations)?;
                self.text.put(" have <a href=\"#d")?;
                self.text.number(most.dependency as u64)?;
                self.text.put("\">")?;
                self.pair(dependency)?;
                self.text.put("</a> in the cycle or path that is shown. ")?;
                self.text.put(advice_on(dependency))?;
            }
        }
        self.text.put("</p>\n")
    }

    /// A violation.
    fn violation(&mut self, violation: &Violation<'_>, place: u64) -> Result<(), AllocError> {
        self.text.put("<article class=\"violation\" id=\"v")?;
        self.text.number(place)?;
        self.text.put("\" data-kind=\"")?;
        self.text.put(kind_word(violation.kind))?;
        self.text.put("\">\n<h4><span class=\"kind\">")?;
        self.text.put(kind_word(violation.kind))?;
        self.text.put("</span> <code class=\"title\">")?;
        write_title(self.text, Form::Markup, violation)?;
        self.text.put("</code></h4>\n<p class=\"line\"><code>")?;
        self.text.name(Form::Markup, violation.text)?;
        self.text.put("</code></p>\n<p>")?;
        self.text.put(kind_meaning(violation.kind))?;
        self.text.put("</p>\n<figure>")?;
        write_picture(self.text, violation)?;
        self.text.put("</figure>\n")?;
        for place in &violation.dependencies {
            self.step(*place)?;
        }
        if let Some(common) = &violation.common {
            self.common(common, violation.dependencies.len())?;
        }
        for end in [violation.safe, violation.exposed] {
            if let Some(end) = end_at(self.rows, end) {
                self.end(end)?;
            }
        }
        self.text.put("</article>\n")
    }

    /// What the first occurrences of so many dependencies have in common.
    fn common(&mut self, common: &Common<'_>, dependencies: usize) -> Result<(), AllocError> {
        let all = if dependencies == 2 { "both" } else { "all" };
        if common.is_one_task {
            self.text.put("<p>")?;
            self.text.put(all)?;
            self.text.put(" by one task</p>\n")?;
        }
        for lock in &common.locks {
            self.text.put("<p>")?;
            self.text.put(all)?;
            self.text.put(" under <code>")?;
            self.text.name(Form::Markup, lock.name)?;
            if let Some(instance) = lock.instance {
                self.text.put("@")?;
                self.text.name(Form::Markup, instance)?;
            }
            self.text.put("</code>")?;
            if lock.is_written {
                self.text.put(" (written)")?;
            }
            self.text.put("</p>\n")?;
        }
        Ok(())
    }

    /// A dependency: once with all that was seen, and then by a link.
    fn step(&mut self, place: usize) -> Result<(), AllocError> {
        let Some(dependency) = dependency_at(self.rows, place) else {
            return Ok(());
        };
        if self.is_told(place) {
            self.text.put("<p><a href=\"#d")?;
            self.text.number(place as u64)?;
            self.text.put("\">")?;
            self.pair(dependency)?;
            return self.text.put("</a>, above</p>\n");
        }
        self.text.put("<div class=\"step\" id=\"d")?;
        self.text.number(place as u64)?;
        self.text.put("\"><p><strong>")?;
        self.pair(dependency)?;
        self.text.put("</strong></p>\n")?;
        self.seen(&dependency.seen)?;
        self.text.put("</div>\n")
    }

    /// Whether a dependency was told before, and that it is from now on.
    fn is_told(&mut self, place: usize) -> bool {
        match self.told.get_mut(place) {
            Some(told) => {
                let before = *told;
                *told = true;
                before
            }
            None => false,
        }
    }

    /// Both classes of a dependency.
    fn pair(&mut self, dependency: &Dependency<'_>) -> Result<(), AllocError> {
        self.text.put("<code>")?;
        self.text.class(Form::Markup, dependency.from)?;
        self.text.put("</code> → <code>")?;
        self.text.class(Form::Markup, dependency.to)?;
        self.text.put("</code>")
    }

    /// An end.
    fn end(&mut self, end: &End<'_>) -> Result<(), AllocError> {
        self.text.put("<div class=\"end\"><p><strong>")?;
        LINES.used(self.text, end)?;
        self.text.put("</strong></p>\n")?;
        self.seen(&end.seen)?;
        if let Use::Exposed = end.used {
            self.since(State::Hard, &end.hard)?;
            self.since(State::Soft, &end.soft)?;
        }
        self.text.put("</div>\n")
    }

    /// Where something was first seen, with the locks that its task held and the handlers that it was in.
    fn seen(&mut self, seen: &Seen<'_>) -> Result<(), AllocError> {
        self.text.put("<p>")?;
        LINES.by(self.text, seen)?;
        self.line(&seen.line)?;
        self.text.put("<ul class=\"held\">\n")?;
        for held in &seen.held {
            self.text.put("<li>holds <code>")?;
            self.text.class(Form::Markup, held.class)?;
            self.text.put("</code>, ")?;
            self.line(&held.line)?;
            self.text.put("</li>\n")?;
        }
        for handler in &seen.handlers {
            self.text.put("<li>in a ")?;
            self.text.put(state_word(handler.state))?;
            self.text.put(" handler, ")?;
            self.line(&handler.line)?;
            self.text.put("</li>\n")?;
        }
        self.text.put("</ul>\n")
    }

    /// Since when interrupts are enabled.
    fn since(&mut self, state: State, since: &Since<'_>) -> Result<(), AllocError> {
        if let Since::Off = since {
            return Ok(());
        }
        self.text.put("<p>")?;
        self.text.put(state_word(state))?;
        match since {
            Since::Line(line) => {
                self.text.put(" interrupts enabled since ")?;
                self.line(line)?;
            }
            _ => self.text.put(" interrupts enabled since the trace began")?,
        }
        self.text.put("\n")
    }

    /// A line of a trace, and the calls that led there.
    fn line(&mut self, line: &Line<'_>) -> Result<(), AllocError> {
        LINES.at(self.text, &line.at)?;
        self.text.put(": <code>")?;
        self.text.name(Form::Markup, line.text)?;
        self.text.put("</code>")?;
        match &line.place {
            Some(Place::Called(frames)) => {
                self.text.put("<ol class=\"stack\">")?;
                for frame in frames {
                    self.text.put("<li>")?;
                    LINES.frame(self.text, frame)?;
                    write_snippet(self.text, self.sources, frame)?;
                    self.text.put("</li>")?;
                }
                self.text.put("</ol>")
            }
            Some(Place::Recorded(number)) => {
                self.text.put(", line ")?;
                self.text.number(*number)?;
                self.text.put(" of the recording")
            }
            None => Ok(()),
        }
    }
}

/// What may help with the violations whose paths have a dependency. Others may lead on to the same place, so none of them
/// has to be gone.
fn advice_on(dependency: &Dependency<'_>) -> &'static str {
    if dependency.from == dependency.to {
        "Make one order for these locks and give the inner one another class, or hold one at a time. Then check again: other paths may remain."
    } else {
        "Take these locks the other way round, and check again: other paths may remain."
    }
}
