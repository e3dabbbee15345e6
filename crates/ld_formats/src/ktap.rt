//! KTAP: a test for the traces, and one for each group of violations.

use crate::story::Lines;
use crate::text::{Names, Text};
use crate::words::{first_of, write_title, write_untold};
use ld_escape::Form;
use ld_rows::{Group, Rows};
use std::alloc::{AllocError, Global};

/// How lines of diagnostics are written.
const DIAGNOSTICS: Lines = Lines {
    names: Names::Escaped(Form::Tap),
    between: "\n# ",
};

/// The report as KTAP of version 1. Test 1 is ok if no trace is refused. The next are groups of violations, none of
/// which is ok; if there is no group, test 2 is ok.
///
/// # Errors
///
/// `AllocError` if a growth of memory was refused.
pub(crate) fn ktap_text(alloc: Global, rows: &Rows<'_>) -> Result<Vec<u8>, AllocError> {
    let mut text = Text::new(alloc);
    text.put("KTAP version 1\n1..")?;
    text.number((rows.groups.len() as u64).max(1).saturating_add(1))?;
    text.put("\n")?;
    write_traces(&mut text, rows)?;
    if rows.groups.is_empty() {
        text.put("ok 2 no violation\n")?;
    }
    let mut number = 2;
    for group in &rows.groups {
        write_group(&mut text, rows, group, number)?;
        number = number.saturating_add(1);
    }
    write_untold(&mut text, rows, "# ", "\n")?;
    Ok(text.into_bytes())
}

/// Whether all traces are accepted.
fn write_traces(text: &mut Text, rows: &Rows<'_>) -> Result<(), AllocError> {
    for refused in &rows.refused {
        text.put("# ")?;
        text.name(Form::Tap, refused.line.at.label)?;
        text.put(" is refused: ")?;
        text.name(Form::Tap, refused.fault.as_bytes())?;
        text.put(", ")?;
        DIAGNOSTICS.line(text, &refused.line)?;
        text.put("\n")?;
    }
    if !rows.refused.is_empty() {
        text.put("not ")?;
    }
    text.put("ok 1 traces accepted\n")
}

/// A group of violations: each with what stands behind it, and then the test.
fn write_group(
    text: &mut Text,
    rows: &Rows<'_>,
    group: &Group,
    number: u64,
) -> Result<(), AllocError> {
    for place in &group.violations {
        if let Some(violation) = rows.violations.get(*place) {
            text.put("# ")?;
            text.name(Form::Tap, violation.text)?;
            text.put("\n# ")?;
            DIAGNOSTICS.story(text, rows, violation)?;
            text.put("\n")?;
        }
    }
    text.put("not ok ")?;
    text.number(number)?;
    text.put(" ")?;
    if let Some(violation) = first_of(rows, group) {
        write_title(text, Form::Tap, violation)?;
    }
    write_others(text, group)?;
    text.put("\n")
}

/// How many violations stand together, if they are several.
pub(crate) fn write_others(text: &mut Text, group: &Group) -> Result<(), AllocError> {
    let count = group.violations.len() as u64;
    if count < 2 {
        return Ok(());
    }
    text.put(" and ")?;
    text.number(count - 1)?;
    text.put(" more")
}
