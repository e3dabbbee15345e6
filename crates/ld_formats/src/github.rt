//! Workflow commands of GitHub: an annotation for each violation, and for each refused trace.

use crate::files::{Spot, Stripped, spot_of, traced};
use crate::story::Lines;
use crate::text::{Names, Text};
use crate::words::{line_of, write_title, write_untold};
use ld_escape::Form;
use ld_rows::{Refused, Rows, Violation};
use std::alloc::{AllocError, Global};

/// How a message is written: `%0A` is the end of a line in it.
const MESSAGE: Lines = Lines {
    names: Names::Escaped(Form::Message),
    between: "%0A",
};

/// The annotations of a report, a line each: a warning for each refused trace, an error for each violation, and last a
/// notice of how many these are. Paths lose their beginning.
///
/// # Errors
///
/// `AllocError` if a growth of memory was refused.
pub(crate) fn github_text(
    alloc: Global,
    rows: &Rows<'_>,
    stripped: &Stripped<'_>,
) -> Result<Vec<u8>, AllocError> {
    let mut text = Text::new(alloc);
    for refused in &rows.refused {
        write_refused(&mut text, refused, stripped)?;
    }
    for violation in &rows.violations {
        write_violation(&mut text, rows, violation, stripped)?;
    }
    write_notice(&mut text, rows)?;
    Ok(text.into_bytes())
}

/// A refused trace.
fn write_refused(
    text: &mut Text,
    refused: &Refused<'_>,
    stripped: &Stripped<'_>,
) -> Result<(), AllocError> {
    text.put("::warning ")?;
    write_spot(text, &traced(&refused.line.at, stripped))?;
    text.put(",title=refused trace::")?;
    text.name(Form::Message, refused.line.at.label)?;
    text.put(" is refused: ")?;
    text.name(Form::Message, refused.fault.as_bytes())?;
    text.put("%0A")?;
    MESSAGE.line(text, &refused.line)?;
    text.put("\n")
}

/// A violation, with what stands behind it.
fn write_violation(
    text: &mut Text,
    rows: &Rows<'_>,
    violation: &Violation<'_>,
    stripped: &Stripped<'_>,
) -> Result<(), AllocError> {
    text.put("::error ")?;
    match line_of(rows, violation) {
        Some(line) => write_spot(text, &spot_of(line, stripped))?,
        None => write_spot(text, &traced(&violation.at, stripped))?,
    }
    text.put(",title=")?;
    write_title(text, Form::Property, violation)?;
    text.put("::")?;
    text.name(Form::Message, violation.text)?;
    text.put("%0A")?;
    MESSAGE.story(text, rows, violation)?;
    text.put("\n")
}

/// The file and the line of an annotation.
fn write_spot(text: &mut Text, spot: &Spot<'_>) -> Result<(), AllocError> {
    text.put("file=")?;
    text.name(Form::Property, spot.file)?;
    text.put(",line=")?;
    text.number(spot.line)
}

/// How many traces and violations there are.
fn write_notice(text: &mut Text, rows: &Rows<'_>) -> Result<(), AllocError> {
    text.put("::notice title=lock order::violations ")?;
    text.number(rows.count)?;
    text.put(", traces ")?;
    text.number(rows.totals.traces)?;
    text.put(", of which refused ")?;
    text.number(rows.totals.refused)?;
    write_untold(text, rows, ", ", "")?;
    text.put("\n")
}
