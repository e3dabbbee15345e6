//! A page of HTML that holds all of a report, and asks for nothing from outside.

use crate::articles::write_violations;
use crate::story::Lines;
use crate::style::{SCRIPT, STYLE};
use crate::tables::{write_classes, write_graph, write_refused};
use crate::text::{Names, Text};
use crate::words::write_untold;
use ld_escape::Form;
use ld_rows::Rows;
use ld_sources::Sources;
use std::alloc::{AllocError, Global};

/// How a line of a trace is written.
pub(crate) const LINES: Lines = Lines {
    names: Names::Escaped(Form::Markup),
    between: "<br>",
};

/// The report as one page, with the lines of these sources, written by a program of this version. Its style and its
/// script are within it, and its policy lets a browser load nothing else. All of it can be read without the script.
///
/// # Errors
///
/// `AllocError` if a growth of memory was refused.
pub(crate) fn html_text(
    alloc: Global,
    rows: &Rows<'_>,
    sources: &Sources<'_>,
    version: &str,
) -> Result<Vec<u8>, AllocError> {
    let mut text = Text::new(alloc);
    write_head(&mut text)?;
    write_verdict(&mut text, rows)?;
    write_counts(&mut text, rows)?;
    write_violations(alloc, &mut text, rows, sources)?;
    write_refused(&mut text, rows)?;
    write_classes(alloc, &mut text, rows)?;
    write_graph(&mut text, rows)?;
    text.put("<footer class=\"soft\"><p>Written by lockgraph ")?;
    text.name(Form::Markup, version.as_bytes())?;
    text.put(".</p></footer>\n<script>")?;
    text.put(SCRIPT)?;
    text.put("</script>\n</body></html>\n")?;
    Ok(text.into_bytes())
}

/// All before the first heading.
fn write_head(text: &mut Text) -> Result<(), AllocError> {
    text.put("<!DOCTYPE html>\n<html lang=\"en\"><head><meta charset=\"utf-8\">\n")?;
    text.put(
        "<meta http-equiv=\"Content-Security-Policy\" content=\"default-src 'none'; style-src 'unsafe-inline'; script-src 'unsafe-inline'\">\n",
    )?;
    text.put("<meta name=\"viewport\" content=\"width=device-width, initial-scale=1\">\n")?;
    text.put("<link rel=\"icon\" href=\"data:,\">\n<title>Lock order report</title>\n<style>")?;
    text.put(STYLE)?;
    text.put("</style></head>\n<body>\n<h1>Lock order report</h1>\n")
}

/// What the report comes to.
fn write_verdict(text: &mut Text, rows: &Rows<'_>) -> Result<(), AllocError> {
    if rows.violations.is_empty() {
        text.put("<p class=\"good\">No violation")?;
    } else {
        text.put("<p class=\"bad\">Violations: ")?;
        text.number(rows.violations.len() as u64)?;
        text.put(", in groups: ")?;
        text.number(rows.groups.len() as u64)?;
    }
    if !rows.refused.is_empty() {
        text.put(". Refused traces: ")?;
        text.number(rows.totals.refused)?;
    }
    write_untold(text, rows, "; ", "")?;
    text.put(".</p>\n")
}

/// The counts, and what each of them means.
fn write_counts(text: &mut Text, rows: &Rows<'_>) -> Result<(), AllocError> {
    let totals = &rows.totals;
    text.put("<dl class=\"counts\" id=\"counts\">\n")?;
    write_count(
        text,
        "traces",
        totals.traces,
        "Recorded runs, each of which was read by itself.",
    )?;
    write_count(
        text,
        "refused",
        totals.refused,
        "Traces with an impossible line. Nothing of them counts.",
    )?;
    write_count(
        text,
        "events",
        totals.events,
        "Lines of the accepted traces: acquisitions, releases, interrupts.",
    )?;
    write_count(
        text,
        "classes",
        totals.classes,
        "Kinds of locks. Rules hold for all locks of a class.",
    )?;
    write_count(
        text,
        "dependencies",
        totals.dependencies,
        "Pairs of classes: the second was acquired while the first was held.",
    )?;
    write_count(
        text,
        "violations",
        rows.count,
        "Orders and uses of locks that can end in a deadlock.",
    )?;
    text.put("</dl>\n")
}

/// A count.
fn write_count(
    text: &mut Text,
    word: &'static str,
    count: u64,
    meaning: &'static str,
) -> Result<(), AllocError> {
    text.put("<div><dt>")?;
    text.put(word)?;
    text.put("</dt><dd class=\"figure\" data-count=\"")?;
    text.put(word)?;
    text.put("\">")?;
    text.number(count)?;
    text.put("</dd><dd class=\"what\">")?;
    text.put(meaning)?;
    text.put("</dd></div>\n")
}
