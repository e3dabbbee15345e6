//! Writes names, places, usage characters and figures. Each call that writes answers `AllocError` where memory was refused.
ghost use Rattle.std.specs.Prelude.{◌≡◌, ◌++◌, OnOk, map};
ghost use Rattle.ld_texts.specs.List.{marks_text};
ghost use Rattle.ld_texts.specs.Stats.{figure_line, figure_lines};

use ld_escape::write_on_line;
use ld_overview::{Book, ClassName, Traces, UsageRow, Witness};
use ld_places::ShownPlaces;
use std::alloc::{AllocError, Global};
use std::io::Write;

/// Where things were seen: traces by their labels, lines by their files.
#[derive(Drop)]
pub(crate) struct Seen<'b, 'p, 'f, 'a> {
    traces: Traces<'b, 'a>,
    places: &'p ShownPlaces<'f>,
}

impl<'b, 'p, 'f, 'a> Seen<'b, 'p, 'f, 'a> {
    /// What the traces of a book are, and where their lines are shown.
    pub(crate) fn new(
        alloc: Global,
        book: &'b Book<'a>,
        places: &'p ShownPlaces<'f>,
    ) -> Result<Seen<'b, 'p, 'f, 'a>, AllocError> {
        let traces = Traces::new(alloc, book)?;
        Ok(Seen { traces, places })
    }

    /// The label of a trace. It is empty where there is no such trace.
    pub(crate) fn label(&self, number: u64) -> &'a [u8] {
        let in_order = self.traces.listed();
        match in_order.binary_search_by_key(&number, |trace| trace.source.number) {
            Ok(at) => in_order[at].source.name,
            Err(_) => b"",
        }
    }

    /// The file in which a line is shown, and the line's number there. Of a line of no file it is no name and that line.
    pub(crate) fn place(&self, line: u64) -> (&'f str, u64) {
        match self.places.place(line) {
            Some(place) => (place.file, place.line),
            None => ("", line),
        }
    }
}

/// Whether a class has this name, as it is written.
pub(crate) fn is_called(class: ClassName<'_>, name: &[u8]) -> bool {
    if class.sub == 0 {
        return class.name == name;
    }
    match name.strip_prefix(class.name) {
        Some([b'/', digit]) => *digit == b'0'.wrapping_add(class.sub),
        _ => false,
    }
}

/// Writes the usage characters of a class, in braces.
pub(crate) fn write_marks(text: &mut Vec<u8>, usage: &UsageRow) -> Result<(), AllocError>
    ensures { OnOk result (text.new.items ≡ text.old.items ++ marks_text usage.now.bits) }
{
    text.extend_from_slice(b"{")?;
    text.extend_from_slice(&usage.bits.marks())?;
    text.extend_from_slice(b"}")?;
    Ok(())
}

/// Writes where something was first seen: `LABEL FILE:LINE`.
pub(crate) fn write_at(
    text: &mut Vec<u8>,
    seen: &Seen<'_, '_, '_, '_>,
    at: Witness,
) -> Result<(), AllocError> {
    text.extend_from_slice(seen.label(at.number))?;
    text.push(b' ')?;
    let (file, line) = seen.place(at.line);
    write_on_line(text, file.as_bytes())?;
    write!(text, ":{line}").map_err(|_| AllocError)
}

/// Writes `NAME FIGURE`.
pub(crate) fn write_figure(text: &mut Vec<u8>, name: &str, figure: u64) -> Result<(), AllocError>
    ensures { OnOk result (text.new.items ≡ text.old.items ++ figure_line (name.now, figure)) }
{
    writeln!(text, "{name} {figure}").map_err(|_| AllocError)
}

/// Writes a line for each name and its figure.
pub(crate) fn write_figures(text: &mut Vec<u8>, figures: &[(&str, u64)]) -> Result<(), AllocError>
    ensures { OnOk result (text.new.items ≡ text.old.items
        ++ figure_lines (map (λ figure. (figure.0.now, figure.1)) figures.now)) }
{
    for figure in figures {
        write_figure(text, figure.0, figure.1)?;
    }
    Ok(())
}

/// Writes a figure whose name is a prefix and a name, as `refused-BadVerb 1`.
pub(crate) fn write_prefixed(
    text: &mut Vec<u8>,
    prefix: &str,
    name: &str,
    figure: u64,
) -> Result<(), AllocError>
    ensures { OnOk result (text.new.items ≡ text.old.items
        ++ figure_line (prefix.now ++ name.now, figure)) }
{
    writeln!(text, "{prefix}{name} {figure}").map_err(|_| AllocError)
}
