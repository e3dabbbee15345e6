//! Numbers of an event: where each stands among its bytes, the lowest byte first.
ghost use Rattle.std.specs.Prelude.{◌≡◌, ◌<◌, ◌^◌, slice_index};
ghost use Rattle.ld_layout.specs.Fields.{plain};
ghost use Rattle.ld_kernel.specs.Numbers.{half_at, long_at, number_of, spelled, width_of, word_at};

use ld_layout::{Field, Shape};

/// How many bytes a number has.
#[derive(Clone, Copy, Debug, PartialEq, Eq)]
pub enum Width {
    One,
    Two,
    Four,
    Eight,
}

/// Where a number stands in an event.
#[derive(Clone, Copy, Debug, PartialEq, Eq)]
pub struct Number {
    /// Offset of its lowest byte, which is its first one.
    pub at: u32,
    pub width: Width,
}

/// The byte at a position; 0 behind the end.
pub(crate) fn byte_at(bytes: &[u8], position: usize) -> u8
    ensures { result ≡ slice_index bytes.now position }
{
    if position < bytes.len() {
        bytes[position]
    } else {
        0
    }
}

/// The number of 2 bytes at a position.
pub(crate) fn half_at(bytes: &[u8], position: usize) -> u16
    requires { position < 2 ^ 36 }

    ensures { result ≡ half_at bytes.now position }
{
    u16::from(byte_at(bytes, position)) + 256 * u16::from(byte_at(bytes, position + 1))
}

/// The number of 4 bytes at a position.
pub(crate) fn word_at(bytes: &[u8], position: usize) -> u32
    requires { position < 2 ^ 35 }

    ensures { result ≡ word_at bytes.now position }
{
    u32::from(half_at(bytes, position)) + 65_536 * u32::from(half_at(bytes, position + 2))
}

/// The number of 8 bytes at a position.
fn long_at(bytes: &[u8], position: usize) -> u64
    requires { position < 2 ^ 34 }

    ensures { result ≡ long_at bytes.now position }
{
    u64::from(word_at(bytes, position)) + (1 << 32) * u64::from(word_at(bytes, position + 4))
}

/// How many bytes a number of this size has, if there are such numbers.
fn width_of(size: u32) -> Option<Width>
    ensures { result ≡ width_of size }
{
    match size {
        1 => Some(Width::One),
        2 => Some(Width::Two),
        4 => Some(Width::Four),
        8 => Some(Width::Eight),
        _ => None,
    }
}

impl Number {
    ghost use Rattle.ld_kernel.specs.Numbers.{end_of, read};

    /// Behind its last byte.
    pub fn end(self) -> usize
        ensures { result ≡ end_of self }
    {
        let bytes: usize = match self.width {
            Width::One => 1,
            Width::Two => 2,
            Width::Four => 4,
            Width::Eight => 8,
        };
        self.at as usize + bytes
    }

    /// The number in the bytes of an event. What is behind their end counts as 0.
    pub fn read(self, bytes: &[u8]) -> u64
        ensures { result ≡ read self bytes.now }
    {
        let at = self.at as usize;
        match self.width {
            Width::One => u64::from(byte_at(bytes, at)),
            Width::Two => u64::from(half_at(bytes, at)),
            Width::Four => u64::from(word_at(bytes, at)),
            Width::Eight => long_at(bytes, at),
        }
    }
}

/// The number that stands in the place of a field, if one does.
pub(crate) fn number_of(field: Field<'_>) -> Option<Number>
    ensures { result ≡ number_of (plain field.entry) }
{
    let width = width_of(field.size)?;
    match field.shape {
        Shape::Plain => Some(Number {
            at: field.offset,
            width,
        }),
        Shape::Array | Shape::Located | Shape::Relative => None,
    }
}
