//! A field of an event, as a line of a format says it.
ghost use Rattle.std.specs.Prelude.{◌≡◌, ◌≤◌, length};
ghost use Rattle.std.specs.List.{list_all, list_any, position_or_len};
ghost use Rattle.ld_layout.specs.Fields.{field_said, is_bracket, is_name, is_name_byte, made, named, plain, shape_of, sign};
ghost use Rattle.ld_layout.specs.Lines.{seen};

use crate::fault::Wrong;
use crate::line::{last_word, number, value};

/// What stands in the place of a field.
#[derive(Clone, Copy, Debug, PartialEq, Eq)]
pub enum Shape {
    /// A number or an address.
    Plain,
    /// Several of them.
    Array,
    /// 32 bits that tell of a part behind the fields: its offset in the event, and its length above that
    /// (`__data_loc`).
    Located,
    /// The same with an offset from the field's end (`__rel_loc`).
    Relative,
}

/// A field of an event.
#[derive(Clone, Copy, Debug, PartialEq, Eq)]
pub struct Field<'a> {
    pub name: &'a [u8],
    pub shape: Shape,
    /// Where it stands in an event, in bytes.
    pub offset: u32,
    /// How many bytes it has.
    pub size: u32,
    pub is_signed: bool,
}

fn is_name_byte(byte: u8) -> bool
    ensures { result ≡ is_name_byte byte }
{
    byte.is_ascii_alphanumeric() || byte == b'_'
}

fn are_name_bytes(text: &[u8]) -> bool
    ensures { result ≡ list_all is_name_byte text.now }
{
    text.iter().all(|byte| is_name_byte(*byte))
}

pub(crate) fn is_name(text: &[u8]) -> bool
    ensures { result ≡ is_name text.now }
{
    !text.is_empty() && are_name_bytes(text)
}

fn has_bracket(word: &[u8]) -> bool
    ensures { result ≡ list_any is_bracket word.now }
{
    word.iter().any(|byte| *byte == b'[')
}

/// How many bytes stand before the first bracket.
fn name_len(word: &[u8]) -> usize
    ensures front { result ≡ position_or_len is_bracket word.now }
    ensures within { result ≤ length word.now }
{
    word.iter().take_while(|byte| **byte != b'[').count()
}

/// The name that the last word of a declaration has, without brackets.
fn named(declared: &[u8]) -> Result<&[u8], Wrong>
    ensures { seen (λ x. x.now) result ≡ named declared.now }
{
    let word = last_word(declared);
    let name = &word[..name_len(word)];
    if !is_name(name) || has_bracket(word) && !word.ends_with(b"]") {
        return Err(Wrong::Declaration);
    }
    Ok(name)
}

fn shape_of(declared: &[u8]) -> Shape
    ensures { result ≡ shape_of declared.now }
{
    if declared.starts_with(b"__data_loc ") {
        Shape::Located
    } else if declared.starts_with(b"__rel_loc ") {
        Shape::Relative
    } else if has_bracket(last_word(declared)) {
        Shape::Array
    } else {
        Shape::Plain
    }
}

/// Whether a number has a sign: `1` or `0`.
fn sign(text: &[u8]) -> Result<bool, Wrong>
    ensures { result ≡ sign text.now }
{
    match text {
        b"0" => Ok(false),
        b"1" => Ok(true),
        _ => Err(Wrong::Sign),
    }
}

/// The field of the parts of a line.
#[tactic(auto, unfolding(crate::specs::Fields::made))]
fn made<'a>(
    declared: &'a [u8],
    offset: &[u8],
    size: &[u8],
    signed: &[u8],
) -> Result<Field<'a>, Wrong>
    ensures { seen plain result ≡ made declared.entry.now offset.now size.now signed.now }
{
    let name = named(declared)?;
    let offset = number(offset)?;
    let size = number(size)?;
    let is_signed = sign(signed)?;
    Ok(Field {
        name,
        shape: shape_of(declared),
        offset,
        size,
        is_signed,
    })
}

/// The field that a line says.
#[tactic(auto, unfolding(crate::specs::Fields::field_said))]
pub(crate) fn read_field(line: &[u8]) -> Result<Field<'_>, Wrong>
    ensures { seen plain result ≡ field_said line.now }
{
    let (declared, rest) = value(line, b"\tfield:")?;
    let (offset, rest) = value(rest, b"\toffset:")?;
    let (size, rest) = value(rest, b"\tsize:")?;
    let (signed, rest) = value(rest, b"\tsigned:")?;
    if !rest.is_empty() {
        return Err(Wrong::Field);
    }
    made(declared, offset, size, signed)
}
