//! The tables of a page: refused traces, and all classes.

use crate::html::LINES;
use crate::text::Text;
use ld_escape::Form;
use ld_rows::{At, ClassRow, Frame, Origin, Place, Rows};
use std::alloc::{AllocError, Global};

/// The uses of which a class's row has the first ones, in their order.
const FIRST_USES: [&str; 4] = ["in hard", "on hard", "in soft", "on soft"];

/// Writes the refused traces, if there is one.
pub(crate) fn write_refused(text: &mut Text, rows: &Rows<'_>) -> Result<(), AllocError> {
    if rows.refused.is_empty() {
        return Ok(());
    }
    text.put(
        "<h2>Refused traces</h2>\n<table id=\"refused\"><thead><tr><th>Trace</th><th>Line</th><th>Fault</th><th>What the line says</th></tr></thead><tbody>\n",
    )?;
    for refused in &rows.refused {
        text.put("<tr><td><code>")?;
        text.name(Form::Markup, refused.line.at.label)?;
        text.put("</code></td><td>")?;
        LINES.at(text, &refused.line.at)?;
        text.put("</td><td>")?;
        text.name(Form::Markup, refused.fault.as_bytes())?;
        text.put("</td><td><code>")?;
        text.name(Form::Markup, refused.line.text)?;
        text.put("</code></td></tr>\n")?;
    }
    text.put("</tbody></table>\n")
}

/// Writes all classes, if they are there.
pub(crate) fn write_classes(
    alloc: Global,
    text: &mut Text,
    rows: &Rows<'_>,
) -> Result<(), AllocError> {
    if rows.classes.is_empty() {
        return Ok(());
    }
    let mut before = vec![in alloc; 0_u64; rows.classes.len()]?;
    let mut behind = vec![in alloc; 0_u64; rows.classes.len()]?;
    for edge in &rows.edges {
        count(&mut before, edge.to);
        count(&mut behind, edge.from);
    }
    text.put(
        "<h2>Classes</h2>\n<p class=\"soft\">Usage: the first character is for hard interrupts, the third for softirqs, and the others are always <code>.</code>. <code>-</code>: acquired by handlers (a <code>try</code> doesn't count). <code>+</code>: held with the interrupts enabled. <code>?</code>: both, which is a conflict. <code>.</code>: neither. A program without handlers has no <code>-</code> and no <code>?</code>. Below them stands where each was first seen: acquired <code>in</code> a handler, or held with interrupts <code>on</code>.</p>\n<p class=\"soft\">With a script, a click on a name shows the classes around it, and one on a heading sorts.</p>\n",
    )?;
    write_walk(text)?;
    text.put(
        "<p class=\"filter scripted\" hidden><input type=\"search\" id=\"find-class\" placeholder=\"A part of a name\" aria-label=\"Find classes\"></p>\n",
    )?;
    text.put(
        "<table id=\"classes\"><thead><tr><th>Class</th><th>Usage</th><th data-numbers=\"1\">Acquired while held</th><th data-numbers=\"1\">Held while acquired</th><th>What it is</th></tr></thead><tbody id=\"class-rows\">\n",
    )?;
    for (place, row) in rows.classes.iter().enumerate() {
        write_class(text, row, place as u64)?;
        write_number(text, counted(&before, place))?;
        write_number(text, counted(&behind, place))?;
        write_origin(text, row)?;
    }
    text.put("</tbody></table>\n")
}

/// Counts one more.
fn count(counts: &mut [u64], place: usize) {
    if let Some(count) = counts.get_mut(place) {
        *count = count.saturating_add(1);
    }
}

/// What was counted.
fn counted(counts: &[u64], place: usize) -> u64 {
    counts.get(place).copied().unwrap_or(0)
}

/// What a script fills with the classes around one.
fn write_walk(text: &mut Text) -> Result<(), AllocError> {
    text.put(
        "<div class=\"walk\" id=\"walk\" hidden><div><p class=\"soft\">held while it is acquired</p><ul id=\"walk-before\"></ul></div><div><p class=\"soft\">class</p><p><code id=\"walk-class\"></code></p></div><div><p class=\"soft\">acquired while it is held</p><ul id=\"walk-behind\"></ul></div></div>\n",
    )
}

/// The name and the usage of a class.
fn write_class(text: &mut Text, row: &ClassRow<'_>, place: u64) -> Result<(), AllocError> {
    text.put("<tr data-place=\"")?;
    text.number(place)?;
    text.put("\"><td><code>")?;
    text.class(Form::Markup, row.class)?;
    text.put("</code></td><td><code>")?;
    text.name(Form::Markup, &row.marks)?;
    text.put("</code>")?;
    for (used, at) in FIRST_USES.iter().zip(&row.first) {
        if let Some(at) = at {
            write_first(text, *used, at)?;
        }
    }
    text.put("</td>")
}

/// Where a class was first used so.
fn write_first(text: &mut Text, used: &'static str, at: &At<'_>) -> Result<(), AllocError> {
    text.put("<br>")?;
    text.put(used)?;
    text.put(" at ")?;
    text.name(Form::Markup, at.label)?;
    text.put(" ")?;
    LINES.at(text, at)
}

/// A cell with a number.
fn write_number(text: &mut Text, number: u64) -> Result<(), AllocError> {
    text.put("<td class=\"number\">")?;
    text.number(number)?;
    text.put("</td>")
}

/// Where the locks of a class come from, and the end of its row.
fn write_origin(text: &mut Text, row: &ClassRow<'_>) -> Result<(), AllocError> {
    text.put("<td>")?;
    match &row.origin {
        Some(Origin::Variable { name, file }) => {
            text.name(Form::Markup, name)?;
            text.put(" of ")?;
            text.name(Form::Markup, file)?;
        }
        Some(Origin::Initialised(place)) => {
            text.put("initialised ")?;
            write_place(text, place)?;
        }
        Some(Origin::FirstLocked(place)) => {
            text.put("first locked ")?;
            write_place(text, place)?;
        }
        None => {}
    }
    text.put("</td></tr>\n")
}

/// Where a line comes from: the innermost call.
fn write_place(text: &mut Text, place: &Place) -> Result<(), AllocError> {
    match place {
        Place::Called(frames) => match frames.first() {
            Some(frame) => write_frame(text, frame),
            None => Ok(()),
        },
        Place::Recorded(number) => {
            text.put("line ")?;
            text.number(*number)?;
            text.put(" of the recording")
        }
    }
}

fn write_frame(text: &mut Text, frame: &Frame) -> Result<(), AllocError> {
    text.put("in ")?;
    LINES.frame(text, frame)
}

/// Writes the classes and the dependencies for the script.
pub(crate) fn write_graph(text: &mut Text, rows: &Rows<'_>) -> Result<(), AllocError> {
    text.put("<script type=\"application/json\" id=\"graph\">{\"classes\":[")?;
    for (place, row) in rows.classes.iter().enumerate() {
        if place > 0 {
            text.put(",")?;
        }
        text.put("\"")?;
        text.class(Form::Json, row.class)?;
        text.put("\"")?;
    }
    text.put("],\"edges\":[")?;
    for (place, edge) in rows.edges.iter().enumerate() {
        if place > 0 {
            text.put(",")?;
        }
        text.put("[")?;
        text.number(edge.from as u64)?;
        text.put(",")?;
        text.number(edge.to as u64)?;
        text.put("]")?;
    }
    text.put("]}</script>\n")
}
