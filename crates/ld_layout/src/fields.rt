//! The fields of a text, line by line.
ghost use Rattle.std.specs.Prelude.{◌≡◌, ◌+◌, ◌++◌, ◌<◌, ◌^◌, [], length, map, OnOk};
ghost use Rattle.std.specs.List.{cons_option};
ghost use Rattle.std.specs.Option.{option_map};
ghost use Rattle.ld_layout.specs.Fields.{plain};
ghost use Rattle.ld_layout.specs.Lines.{lines};
ghost use Rattle.ld_layout.specs.Texts.{Gives, field_named, fields_from, line_said};

use crate::fault::{Fault, ReadError};
use crate::field::{Field, read_field};
use crate::line::next_line;
use std::alloc::{AllocError, Global};

/// The field of the line with this number; none of an empty line.
#[tactic(auto, unfolding(crate::specs::Texts::line_said))]
fn line_said(number: usize, line: &[u8]) -> Result<Option<Field<'_>>, ReadError>
    ensures { Gives (λ f. option_map plain f) result (line_said number line.now) }
{
    if line.is_empty() {
        return Ok(None);
    }
    match read_field(line) {
        Ok(field) => Ok(Some(field)),
        Err(wrong) => Err(ReadError::Fault(Fault::Line(number, wrong))),
    }
}

/// Puts a field behind the others, if there is one.
fn keep<'a>(fields: &mut Vec<Field<'a>>, found: Option<Field<'a>>) -> Result<(), AllocError>
    ensures { OnOk result (map plain fields.new.items ≡ map plain fields.old.items ++ cons_option (option_map plain found.entry) []) }
{
    match found {
        Some(field) => Ok(fields.push(field)?),
        None => Ok(()),
    }
}

/// The fields of lines, the first of which has this number, up to one that begins with `print fmt: `, and
/// whether there is one.
pub(crate) fn read_fields(
    alloc: Global,
    first: usize,
    text: &[u8],
) -> Result<(Vec<Field<'_>>, bool), ReadError>
    requires { first < 10 }

    ensures { Gives (λ x. (map plain x.0.items, x.1)) result (fields_from first (lines text.now)) }
{
    let mut fields = Vec::new(alloc);
    let mut number = first;
    let mut rest = text;
    while let Some((line, after)) = next_line(rest) {
        if line.starts_with(b"print fmt: ") {
            return Ok((fields, true));
        }
        let found = line_said(number, line)?;
        keep(&mut fields, found)?;
        number += 1;
        rest = after;
    }
    Ok((fields, false))
}

/// The field of this name, the first one if there are several.
pub(crate) fn field_named<'a>(fields: &[Field<'a>], name: &[u8]) -> Option<Field<'a>>
    ensures { option_map plain result ≡ field_named name.now (map plain fields.entry.now) }
{
    let mut rest = fields;
    while let [first, others @ ..] = rest {
        if first.name == name {
            return Some(*first);
        }
        rest = others;
    }
    None
}
