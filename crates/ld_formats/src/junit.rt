//! JUnit's XML: a case for the traces, and one for each group of violations.

use crate::files::{Spot, Stripped, spot_of};
use crate::ktap::write_others;
use crate::story::Lines;
use crate::text::{Names, Text};
use crate::words::{first_of, kind_word, line_of, untold, write_title, write_untold};
use ld_escape::Form;
use ld_rows::{Group, Rows, Violation};
use std::alloc::{AllocError, Global};

/// How lines of a message are written.
const MESSAGE: Lines = Lines {
    names: Names::Escaped(Form::Markup),
    between: "\n",
};

/// The report as a suite of JUnit. The case `traces accepted` has an error if a trace is refused. Each group of
/// violations is a case with a failure; if there is none, the case `no violation` has none. Paths lose their beginning.
///
/// # Errors
///
/// `AllocError` if a growth of memory was refused.
pub(crate) fn junit_text(
    alloc: Global,
    rows: &Rows<'_>,
    stripped: &Stripped<'_>,
) -> Result<Vec<u8>, AllocError> {
    let mut text = Text::new(alloc);
    text.put("<?xml version=\"1.0\" encoding=\"UTF-8\"?>\n<testsuites")?;
    write_counts(&mut text, rows)?;
    text.put(">\n<testsuite name=\"lock order\"")?;
    write_counts(&mut text, rows)?;
    text.put(">\n")?;
    write_traces(&mut text, rows)?;
    if rows.groups.is_empty() {
        text.put("<testcase classname=\"lock order\" name=\"no violation\"/>\n")?;
    }
    for group in &rows.groups {
        write_group(&mut text, rows, group, stripped)?;
    }
    write_left(&mut text, rows)?;
    text.put("</testsuite>\n</testsuites>\n")?;
    Ok(text.into_bytes())
}

/// What isn't told, if it is anything.
fn write_left(text: &mut Text, rows: &Rows<'_>) -> Result<(), AllocError> {
    if untold(rows).iter().all(|(_, count)| *count == 0) {
        return Ok(());
    }
    text.put("<system-out>")?;
    write_untold(text, rows, "", "\n")?;
    text.put("</system-out>\n")
}

/// How many cases there are, and how many of them fail.
fn write_counts(text: &mut Text, rows: &Rows<'_>) -> Result<(), AllocError> {
    let groups = rows.groups.len() as u64;
    text.put(" tests=\"")?;
    text.number(groups.max(1).saturating_add(1))?;
    text.put("\" failures=\"")?;
    text.number(groups)?;
    text.put("\" errors=\"")?;
    text.number(u64::from(!rows.refused.is_empty()))?;
    text.put("\" skipped=\"0\"")
}

/// Whether all traces are accepted.
fn write_traces(text: &mut Text, rows: &Rows<'_>) -> Result<(), AllocError> {
    text.put("<testcase classname=\"lock order\" name=\"traces accepted\"")?;
    if rows.refused.is_empty() {
        return text.put("/>\n");
    }
    text.put("><error type=\"refused\" message=\"traces refused: ")?;
    text.number(rows.totals.refused)?;
    text.put("\">")?;
    for refused in &rows.refused {
        text.name(Form::Markup, refused.line.at.label)?;
        text.put(" is refused: ")?;
        text.name(Form::Markup, refused.fault.as_bytes())?;
        text.put(", ")?;
        MESSAGE.line(text, &refused.line)?;
        text.put("\n")?;
    }
    text.put("</error></testcase>\n")
}

/// A group of violations.
fn write_group(
    text: &mut Text,
    rows: &Rows<'_>,
    group: &Group,
    stripped: &Stripped<'_>,
) -> Result<(), AllocError> {
    let Some(first) = first_of(rows, group) else {
        return Ok(());
    };
    text.put("<testcase classname=\"lock order.")?;
    text.put(kind_word(first.kind))?;
    text.put("\" name=\"")?;
    write_title(text, Form::Markup, first)?;
    text.put("\"")?;
    if let Some(line) = line_of(rows, first) {
        write_spot(text, &spot_of(line, stripped))?;
    }
    text.put("><failure type=\"")?;
    text.put(kind_word(first.kind))?;
    text.put("\" message=\"")?;
    text.name(Form::Markup, first.text)?;
    write_others(text, group)?;
    text.put("\">")?;
    for place in &group.violations {
        if let Some(violation) = rows.violations.get(*place) {
            write_violation(text, rows, violation)?;
        }
    }
    text.put("</failure></testcase>\n")
}

/// The file and the line of a case.
fn write_spot(text: &mut Text, spot: &Spot<'_>) -> Result<(), AllocError> {
    text.put(" file=\"")?;
    text.name(Form::Markup, spot.file)?;
    text.put("\" line=\"")?;
    text.number(spot.line)?;
    text.put("\"")
}

/// A violation, with what stands behind it.
fn write_violation(
    text: &mut Text,
    rows: &Rows<'_>,
    violation: &Violation<'_>,
) -> Result<(), AllocError> {
    text.name(Form::Markup, violation.text)?;
    text.put("\n")?;
    MESSAGE.story(text, rows, violation)?;
    text.put("\n")
}
