//! Writes texts of any bytes for people, so that none of them controls a terminal or ends a line.
ghost use Rattle.std.specs.Prelude.{◌≡◌, ◌<◌, ◌++◌, ◌∷◌, [], OnOk};
ghost use Rattle.ld_escape.specs.Visible.{is_visible, on_line, small_digit, visible, visible_byte};

use crate::form::{is_control, is_foreign};
use crate::shown::is_shown;
use std::alloc::AllocError;

/// Writes bytes that a stream or a map has. A byte that could control a terminal or end a line is `\x` and two digits.
/// So is each from 128 on, if the text isn't shown. A tab stays.
///
/// # Errors
///
/// `AllocError` if a growth of memory was refused.
pub fn write_visible(out: &mut Vec<u8>, text: &[u8]) -> Result<(), AllocError>
    ensures { OnOk result (out.new.items ≡ out.old.items ++ visible text.now) }
{
    let shown = is_shown(text);
    for byte in text {
        write_byte(out, shown, *byte)?;
    }
    Ok(())
}

/// Writes a name on one line, as a file's: a byte that could control a terminal or end the line is `?`.
///
/// # Errors
///
/// `AllocError` if a growth of memory was refused.
pub fn write_on_line(out: &mut Vec<u8>, name: &[u8]) -> Result<(), AllocError>
    ensures { OnOk result (out.new.items ≡ out.old.items ++ on_line name.now) }
{
    let shown = is_shown(name);
    for byte in name {
        let is_as_it_is = is_visible(shown, *byte);
        out.push(if is_as_it_is { *byte } else { b'?' })?;
    }
    Ok(())
}

/// Writes a byte of a text that is shown, or of one that isn't.
fn write_byte(out: &mut Vec<u8>, shown: bool, byte: u8) -> Result<(), AllocError>
    ensures { OnOk result (out.new.items ≡ out.old.items ++ visible_byte shown byte) }
{
    if byte == b'\t' || is_visible(shown, byte) {
        out.push(byte)?;
        return Ok(());
    }
    out.extend_from_slice(b"\\x")?;
    out.push(small_digit(byte / 16))?;
    out.push(small_digit(byte % 16))?;
    Ok(())
}

/// Whether a byte of a text shows something.
fn is_visible(shown: bool, byte: u8) -> bool
    ensures { result ≡ is_visible shown byte }
{
    !is_control(byte) && !is_foreign(shown, byte)
}

/// A digit of a number to the base 16.
fn small_digit(value: u8) -> u8
    requires { value < 16 }
    ensures { result ≡ small_digit value }
{
    if value < 10 {
        b'0' + value
    } else {
        b'a' + (value - 10)
    }
}
