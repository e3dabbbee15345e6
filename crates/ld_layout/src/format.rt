//! What a kernel says of an event: the text of its file `format`.
ghost use Rattle.std.specs.Prelude.{◌≡◌, map};
ghost use Rattle.ld_layout.specs.declared.fault.Fault.TheVariants as faults;
ghost use Rattle.ld_layout.specs.declared.fault.ReadError.TheVariants as errors;
ghost use Rattle.ld_layout.specs.Lines.{lines};
ghost use Rattle.ld_layout.specs.Texts.{Gives, format_said, headed, plain_format};

use crate::fault::{Fault, ReadError, Wrong};
use crate::field::{Field, is_name};
use crate::fields::{field_named, read_fields};
use crate::line::{next_line, number, tail};
use std::alloc::Global;

/// What a kernel says of an event.
#[derive(Debug, Drop)]
pub struct Format<'a> {
    pub name: &'a [u8],
    /// The number that each event of this kind begins with.
    pub id: u32,
    /// In the order of the text.
    pub fields: Vec<Field<'a>>,
}

fn at_line(number: usize, wrong: Wrong) -> ReadError
    ensures { result ≡ errors.Fault (faults.Line number wrong) }
{
    ReadError::Fault(Fault::Line(number, wrong))
}

/// What stands behind the key of the first line, which has this number, and what follows the line.
fn headed<'a>(
    number: usize,
    text: &'a [u8],
    key: &[u8],
    wrong: Wrong,
) -> Result<(&'a [u8], &'a [u8]), ReadError>
    ensures { Gives (λ x. (x.0.now, lines x.1.now)) result (headed number (lines text.entry.now) key.now wrong) }
{
    let Some((line, rest)) = next_line(text) else {
        return Err(at_line(number, wrong));
    };
    match tail(line, key, wrong) {
        Ok(tail) => Ok((tail, rest)),
        Err(wrong) => Err(at_line(number, wrong)),
    }
}

/// What a file `format` says of its event.
///
/// # Errors
///
/// The first line that isn't a kernel's, or a missing end; or memory.
#[tactic(auto, unfolding(crate::specs::Texts::format_said))]
pub fn format_of(alloc: Global, text: &[u8]) -> Result<Format<'_>, ReadError>
    ensures { Gives plain_format result (format_said text.now) }
{
    let (name, rest) = headed(1, text, b"name: ", Wrong::Name)?;
    if !is_name(name) {
        return Err(at_line(1, Wrong::Name));
    }
    let (id, rest) = headed(2, rest, b"ID: ", Wrong::Id)?;
    let id = number(id).map_err(|wrong| at_line(2, wrong))?;
    let (heading, rest) = headed(3, rest, b"format:", Wrong::Heading)?;
    if !heading.is_empty() {
        return Err(at_line(3, Wrong::Heading));
    }
    let (fields, is_printed) = read_fields(alloc, 4, rest)?;
    if is_printed {
        Ok(Format { name, id, fields })
    } else {
        Err(ReadError::Fault(Fault::Ends))
    }
}

impl<'a> Format<'a> {
    ghost use Rattle.std.specs.Option.{option_map};
    ghost use Rattle.ld_layout.specs.Fields.{plain};
    ghost use Rattle.ld_layout.specs.Texts.{field_named};

    /// The field of this name, the first one if there are several.
    pub fn field(&self, name: &[u8]) -> Option<Field<'a>>
        ensures { option_map plain result ≡ field_named name.now (map plain self.now.fields.items) }
    {
        field_named(&self.fields, name)
    }
}
