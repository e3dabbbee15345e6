//! Writes names.
ghost use Rattle.std.specs.Prelude.{◌≡◌, ◌<◌, ◌≤◌, ◌++◌, ◌∷◌, [], IsTrue, List, OnOk, count_by, flat_map, length, take, ℕ};
ghost use Rattle.std.specs.List.{AllPass};
ghost use Rattle.ld_escape.specs.Forms.{is_marked};
ghost use Rattle.ld_escape.specs.Shown.{is_shown};
ghost use Rattle.ld_escape.specs.Written.{digit, hex, is_lead, may_stand, piece, written};

use crate::form::{Form, close, is_hidden, is_marked, mark};
use crate::shown::is_shown;
use std::alloc::AllocError;

/// Writes a name in a form, whatever its bytes are. No other name is written so (`distinct`), each byte that is
/// written may stand there (`safe`), and the byte that begins a mark stands there for marked bytes alone (`marks`).
///
/// # Errors
///
/// `AllocError` where a growth of memory was refused.
pub fn write_escaped(out: &mut Vec<u8>, form: Form, name: &[u8]) -> Result<(), AllocError>
    ensures text { OnOk result (out.new.items ≡ out.old.items ++ written form name.now) }
    ensures safe { OnOk result (AllPass (may_stand form) (written form name.now)) }
    ensures marks { OnOk result (count_by (is_lead form) (written form name.now)
        ≡ count_by (is_marked form (is_shown name.now)) name.now) }
    ensures distinct { OnOk result ((other : List ℕ) → written form other ≡ written form name.now →
        other ≡ name.now) }
{
    write_pieces(out, form, is_shown(name), name)
}

/// Writes the bytes of a name that is shown, or of one that isn't.
pub(crate) fn write_pieces(
    out: &mut Vec<u8>,
    form: Form,
    shown: bool,
    name: &[u8],
) -> Result<(), AllocError>
    ensures { OnOk result (out.new.items ≡ out.old.items ++ flat_map (piece form shown) name.now) }
{
    let mut rest = name;
    loop {
        let (plain, behind) = rest.split_at(plain_len(form, shown, rest));
        out.extend_from_slice(plain)?;
        let Some((byte, after)) = behind.split_first() else {
            return Ok(());
        };
        write_byte(out, form, shown, *byte)?;
        rest = after;
    }
}

/// How many bytes at the front of a name stand in the text as they are.
fn plain_len(form: Form, shown: bool, name: &[u8]) -> usize
    ensures within { result ≤ length name.now }
    ensures plain { flat_map (piece form shown) (take result name.now) ≡ take result name.now }
{
    for (count, byte) in name.iter().enumerate() {
        if !is_plain(form, shown, *byte) {
            return count;
        }
    }
    name.len()
}

/// Whether a byte stands in the text as it is.
fn is_plain(form: Form, shown: bool, byte: u8) -> bool
    ensures { IsTrue result → piece form shown byte ≡ byte ∷ [] }
{
    // Most bytes are these, which no form marks.
    byte.is_ascii_alphanumeric()
        || byte == b'_'
        || !is_marked(form, shown, byte) && !is_hidden(form, shown, byte)
}

/// Writes a byte of a name that is shown, or of one that isn't.
fn write_byte(out: &mut Vec<u8>, form: Form, shown: bool, byte: u8) -> Result<(), AllocError>
    ensures { OnOk result (out.new.items ≡ out.old.items ++ piece form shown byte) }
{
    if is_marked(form, shown, byte) {
        out.extend_from_slice(mark(form))?;
        write_number(out, byte)?;
        out.extend_from_slice(close(form))
    } else if is_hidden(form, shown, byte) {
        out.extend_from_slice(b"\\x")?;
        write_number(out, byte)
    } else {
        out.push(byte)?;
        Ok(())
    }
}

/// Writes the number of a byte by two digits.
fn write_number(out: &mut Vec<u8>, byte: u8) -> Result<(), AllocError>
    ensures { OnOk result (out.new.items ≡ out.old.items ++ hex byte) }
{
    out.push(digit(byte / 16))?;
    out.push(digit(byte % 16))?;
    Ok(())
}

/// A digit of a number to the base 16.
fn digit(value: u8) -> u8
    requires { value < 16 }
    ensures { result ≡ digit value }
{
    if value < 10 {
        b'0' + value
    } else {
        b'A' + (value - 10)
    }
}
