//! What a kernel says of its pages: the text of its file `events/header_page`.
ghost use Rattle.std.specs.Prelude.{◌≡◌, map, true, IfOk};
ghost use Rattle.ld_pages.specs.Layouts.{is_layout};
ghost use Rattle.ld_layout.specs.Fields.{plain};
ghost use Rattle.ld_layout.specs.Texts.{Gives, pages_said, part_said, parts_said, possible_layout};

use crate::fault::{Fault, Part, ReadError};
use crate::field::Field;
use crate::fields::{field_named, read_fields};
use ld_pages::Layout;
use std::alloc::Global;

/// The field that tells of a part.
fn part<'a>(part: Part, name: &[u8], fields: &[Field<'a>]) -> Result<Field<'a>, ReadError>
    ensures { Gives plain result (part_said part name.now (map plain fields.entry.now)) }
{
    match field_named(fields, name) {
        Some(field) => Ok(field),
        None => Err(ReadError::Fault(Fault::Missing(part))),
    }
}

/// The layout of pages whose parts these fields are, if a kernel's pages can have it.
fn possible_layout(
    stamp: Field<'_>,
    commit: Field<'_>,
    contents: Field<'_>,
) -> Result<Layout, ReadError>
    ensures said { Gives (λ l. l) result (possible_layout (plain stamp.entry) (plain commit.entry) (plain contents.entry)) }
    ensures possible { IfOk result (λ l. is_layout l ≡ true) }
{
    if stamp.size != 8 {
        return Err(ReadError::Fault(Fault::Size(Part::Timestamp)));
    }
    if commit.size != 4 && commit.size != 8 {
        return Err(ReadError::Fault(Fault::Size(Part::Commit)));
    }
    let layout = Layout {
        stamp: stamp.offset as usize,
        commit: commit.offset as usize,
        word: commit.size as usize,
        data: contents.offset as usize,
        size: contents.offset as usize + contents.size as usize,
    };
    if layout.is_possible() {
        Ok(layout)
    } else {
        Err(ReadError::Fault(Fault::Impossible))
    }
}

/// What the fields of a text of pages say.
#[tactic(auto, unfolding(crate::specs::Texts::parts_said))]
fn layout_of(fields: &[Field<'_>]) -> Result<Layout, ReadError>
    ensures said { Gives (λ l. l) result (parts_said (map plain fields.entry.now)) }
    ensures possible { IfOk result (λ l. is_layout l ≡ true) }
{
    let stamp = part(Part::Timestamp, b"timestamp", fields)?;
    let commit = part(Part::Commit, b"commit", fields)?;
    let contents = part(Part::Contents, b"data", fields)?;
    possible_layout(stamp, commit, contents)
}

/// What the file `events/header_page` says of a kernel's pages.
///
/// # Errors
///
/// The first line that isn't a kernel's, a part that is missing or has another size; or memory.
#[tactic(auto, unfolding(crate::specs::Texts::pages_said))]
pub fn header_page(alloc: Global, text: &[u8]) -> Result<Layout, ReadError>
    ensures said { Gives (λ l. l) result (pages_said text.now) }
    ensures possible { IfOk result (λ l. is_layout l ≡ true) }
{
    let (fields, is_printed) = read_fields(alloc, 1, text)?;
    if is_printed {
        return Err(ReadError::Fault(Fault::Printed));
    }
    layout_of(&fields)
}
