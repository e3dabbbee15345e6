//! Lines of sources in a page.

use crate::text::Text;
use ld_escape::{Form, is_shown};
use ld_rows::Frame;
use ld_sources::{SourceLine, Sources, around};
use std::alloc::AllocError;

/// What bytes of a source are for who reads a page.
#[derive(Clone, Copy, PartialEq, Eq)]
enum Kind {
    /// Characters of ASCII that a name is shown with as they are, or that mean something in HTML.
    Plain,
    /// Tabs.
    Tabs,
    /// Backslashes.
    Backslashes,
    /// Other bytes of ASCII.
    Control,
    /// Bytes from 128 on.
    Foreign,
}

/// Writes the lines around a call, if its source is there and has that line, which is marked.
pub(crate) fn write_snippet(
    text: &mut Text,
    sources: &Sources<'_>,
    call: &Frame,
) -> Result<(), AllocError> {
    let Some(called) = call.line else {
        return Ok(());
    };
    let Some(file) = sources.file(&call.file) else {
        return Ok(());
    };
    if file.line(called).is_none() {
        return Ok(());
    }
    text.put("<pre class=\"source\">")?;
    for number in around(called) {
        if let Some(line) = file.line(number) {
            if number == called {
                write_marked(text, number, line)?;
            } else {
                write_line(text, number, line)?;
            }
            text.put("\n")?;
        }
    }
    text.put("</pre>")
}

/// Writes the line of a call.
fn write_marked(text: &mut Text, number: u64, line: &SourceLine) -> Result<(), AllocError> {
    text.put("<mark>")?;
    write_line(text, number, line)?;
    text.put("</mark>")
}

/// Writes a line behind its number.
fn write_line(text: &mut Text, number: u64, line: &SourceLine) -> Result<(), AllocError> {
    text.put("<span class=\"number\">")?;
    text.number(number)?;
    text.put("</span> <code>")?;
    write_code(text, &line.text)?;
    text.put("</code>")?;
    if line.is_cut {
        text.put("<span class=\"soft\"> … cut</span>")?;
    }
    Ok(())
}

/// Writes the bytes of a line, run by run.
fn write_code(text: &mut Text, code: &[u8]) -> Result<(), AllocError> {
    let mut left = code;
    // Each run has a byte.
    for _ in 0..code.len() {
        let Some(first) = left.first() else {
            break;
        };
        let kind = kind_of(*first);
        let (run, rest) = cut(left, kind);
        write_run(text, kind, run)?;
        left = rest;
    }
    Ok(())
}

/// The bytes of this kind at the front, and what follows.
fn cut(bytes: &[u8], kind: Kind) -> (&[u8], &[u8]) {
    match bytes.iter().position(|byte| kind_of(*byte) != kind) {
        Some(len) => match bytes.split_at_checked(len) {
            Some(parts) => parts,
            None => (bytes, &[]),
        },
        None => (bytes, &[]),
    }
}

/// What a byte is.
fn kind_of(byte: u8) -> Kind {
    match byte {
        b'\t' => Kind::Tabs,
        b'\\' => Kind::Backslashes,
        b' '..=b'~' => Kind::Plain,
        0x80.. => Kind::Foreign,
        _ => Kind::Control,
    }
}

/// Writes bytes of this kind. Those that a page can't show are written by their numbers, and framed, so that they aren't
/// taken for a source's own backslashes.
fn write_run(text: &mut Text, kind: Kind, run: &[u8]) -> Result<(), AllocError> {
    match kind {
        Kind::Plain => text.name(Form::Markup, run),
        Kind::Tabs => write_each(text, "\t", run),
        Kind::Backslashes => write_each(text, "\\", run),
        Kind::Foreign if is_shown(run) => text.name(Form::Markup, run),
        Kind::Control | Kind::Foreign => {
            text.put("<span class=\"byte\">")?;
            text.name(Form::Markup, run)?;
            text.put("</span>")
        }
    }
}

/// Writes as many of this character as there are bytes.
fn write_each(text: &mut Text, character: &'static str, run: &[u8]) -> Result<(), AllocError> {
    for _ in run {
        text.put(character)?;
    }
    Ok(())
}
