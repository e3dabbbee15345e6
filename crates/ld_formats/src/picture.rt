//! The picture of a violation: its classes under one another, an arrow for each step, and what closes the circle.

use crate::text::Text;
use crate::words::state_word;
use ld_escape::Form;
use ld_rows::{Class, Kind, Violation};
use ld_trace::State;
use std::alloc::AllocError;

/// The height of a box with the arrow below it.
const STEP: u64 = 72;
/// The most bytes of a name that a box holds without squeezing them.
const MOST_BYTES: usize = 68;

/// Draws a violation as SVG.
pub(crate) fn write_picture(text: &mut Text, violation: &Violation<'_>) -> Result<(), AllocError> {
    let boxes = box_count(violation);
    let count = boxes as u64;
    text.put("<svg role=\"img\" viewBox=\"0 0 720 ")?;
    text.number(count.saturating_mul(STEP))?;
    text.put("\" width=\"720\"><title>")?;
    text.name(Form::Markup, violation.text)?;
    text.put("</title>")?;
    for (place, class) in violation.classes.iter().take(boxes).enumerate() {
        write_box(text, *class, (place as u64).saturating_mul(STEP))?;
        if place > 0 {
            write_arrow(text, violation, place)?;
        }
    }
    write_return(text, violation.state, count)?;
    text.put("</svg>")
}

/// How many classes have a box: a cycle's last class is its first one.
fn box_count(violation: &Violation<'_>) -> usize {
    match violation.kind {
        Kind::Recursion | Kind::Inversion => violation.classes.len().saturating_sub(1),
        Kind::Conflict | Kind::Forbidden => violation.classes.len(),
    }
}

/// The box of a class, whose top is at this height.
fn write_box(text: &mut Text, class: Class<'_>, top: u64) -> Result<(), AllocError> {
    text.put("<rect class=\"box\" x=\"1\" y=\"")?;
    text.number(top.saturating_add(4))?;
    text.put("\" width=\"600\" height=\"34\" rx=\"6\"/><text x=\"300\" y=\"")?;
    text.number(top.saturating_add(26))?;
    text.put("\" text-anchor=\"middle\"")?;
    if class.name.len() > MOST_BYTES {
        text.put(" textLength=\"580\" lengthAdjust=\"spacingAndGlyphs\"")?;
    }
    text.put(">")?;
    text.class(Form::Markup, class)?;
    text.put("</text>")
}

/// The arrow to the box of this place, which links to its dependency.
fn write_arrow(text: &mut Text, violation: &Violation<'_>, place: usize) -> Result<(), AllocError> {
    let top = (place as u64).saturating_mul(STEP);
    if let Some(dependency) = violation.dependencies.get(place.saturating_sub(1)) {
        text.put("<a href=\"#d")?;
        text.number(*dependency as u64)?;
        text.put("\">")?;
        write_down(text, top)?;
        return text.put("</a>");
    }
    write_down(text, top)
}

/// An arrow that ends at this height.
fn write_down(text: &mut Text, top: u64) -> Result<(), AllocError> {
    text.put("<path class=\"arrow\" d=\"M300 ")?;
    text.number(top.saturating_sub(34))?;
    text.put("V")?;
    text.number(top.saturating_sub(4))?;
    text.put("\"/><path class=\"head\" d=\"M294 ")?;
    text.number(top.saturating_sub(8))?;
    text.put("h12l-6 12z\"/>")
}

/// The arrow back to the first box: the last dependency of a cycle, or the interrupt of a handler, which is dashed.
fn write_return(text: &mut Text, state: Option<State>, count: u64) -> Result<(), AllocError> {
    let bottom = count
        .saturating_sub(1)
        .saturating_mul(STEP)
        .saturating_add(30);
    text.put("<path class=\"arrow")?;
    if state.is_some() {
        text.put(" dashed")?;
    }
    text.put("\" d=\"M601 ")?;
    text.number(bottom)?;
    text.put("H650V14H612\"/><path class=\"head\" d=\"M614 8v12l-12-6z\"/>")?;
    if let Some(state) = state {
        text.put("<text x=\"656\" y=\"26\">")?;
        text.put(state_word(state))?;
        text.put("</text>")?;
    }
    Ok(())
}
