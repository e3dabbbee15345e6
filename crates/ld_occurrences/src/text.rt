//! Writes what shows a dependency. Each call answers `AllocError` where memory was refused.
ghost use Rattle.std.specs.Prelude.{◌≡◌, ◌++◌, OnOk};
ghost use Rattle.ld_class.specs.Names.{plain_class};
ghost use Rattle.ld_occurrences.specs.Named.{plain_dependency, spelling};
ghost use Rattle.ld_occurrences.specs.Text.{count_text, head_line, occurrence_line, place_text};

use crate::named::NamedDependency;
use crate::rows::Occurrence;
use ld_class::ClassName;
use std::alloc::AllocError;
use std::io::Write;

/// Writes `A -> B traces N`: how many traces show the dependency.
pub fn write_head(
    text: &mut Vec<u8>,
    what: NamedDependency<'_>,
    traces: usize,
) -> Result<(), AllocError>
    ensures { OnOk result (text.new.items
        ≡ text.old.items ++ head_line (plain_dependency what.entry) traces) }
{
    write_class(text, what.from)?;
    text.extend_from_slice(b" -> ")?;
    write_class(text, what.to)?;
    writeln!(text, " traces {traces}").map_err(|_| AllocError)
}

/// Writes `  lines N at LABEL FILE:LINE`: a trace by how many lines it has, with its label, and where its first line is
/// shown at which the dependency stands.
pub fn write_occurrence(
    text: &mut Vec<u8>,
    row: &Occurrence<'_>,
    file: &str,
    line: u64,
) -> Result<(), AllocError>
    ensures { OnOk result (text.new.items
        ≡ text.old.items ++ occurrence_line row.now.lines row.now.source.name.now file.now line) }
{
    write_count(text, row.lines)?;
    text.extend_from_slice(row.source.name)?;
    write_place(text, file, line)?;
    Ok(())
}

/// Writes `  lines N at `.
fn write_count(text: &mut Vec<u8>, lines: u64) -> Result<(), AllocError>
    ensures { OnOk result (text.new.items ≡ text.old.items ++ count_text lines) }
{
    write!(text, "  lines {lines} at ").map_err(|_| AllocError)
}

/// Writes ` FILE:LINE`, and ends the line.
fn write_place(text: &mut Vec<u8>, file: &str, line: u64) -> Result<(), AllocError>
    ensures { OnOk result (text.new.items ≡ text.old.items ++ place_text file.now line) }
{
    writeln!(text, " {file}:{line}").map_err(|_| AllocError)
}

/// Writes the name of a class: `name`, or `name/N` where it is a subclass.
fn write_class(text: &mut Vec<u8>, class: ClassName<'_>) -> Result<(), AllocError>
    ensures { OnOk result (text.new.items ≡ text.old.items ++ spelling (plain_class class.entry)) }
{
    text.extend_from_slice(class.name)?;
    if class.sub == 0 {
        return Ok(());
    }
    let sub = class.sub;
    write!(text, "/{sub}").map_err(|_| AllocError)
}
