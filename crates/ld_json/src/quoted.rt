//! Writes numbers and texts as JSON. Each call answers `AllocError` if memory was refused.
ghost use Rattle.std.specs.Prelude.{◌≡◌, ◌++◌, ◌/◌, ◌%◌, ◌<◌, ◌∷◌, [], OnOk, codes, decimal, flat_map};
ghost use Rattle.std.specs.Str.Lossy.{utf8_lossy};
ghost use Rattle.ld_json.specs.Json.{escaped, hex_digit, quoted};

use std::alloc::{AllocError, Global};
use std::io::Write;

/// Writes these words, which are JSON.
pub fn write_words(out: &mut Vec<u8>, words: &str) -> Result<(), AllocError>
    ensures { OnOk result (out.new.items ≡ out.old.items ++ words.now) }
{
    out.extend_from_slice(words.as_bytes())
}

/// Writes a number behind these words.
pub fn write_number(out: &mut Vec<u8>, words: &str, number: u64) -> Result<(), AllocError>
    ensures { OnOk result (out.new.items ≡ out.old.items ++ words.now ++ decimal number) }
{
    write!(out, "{words}{number}").map_err(|_| AllocError)
}

/// Writes bytes as a text in quotes behind these words. What isn't UTF-8 is told as U+FFFD.
pub fn write_text(
    alloc: Global,
    out: &mut Vec<u8>,
    words: &str,
    bytes: &[u8],
) -> Result<(), AllocError>
    ensures { OnOk result (out.new.items ≡ out.old.items ++ words.now ++ quoted bytes.now) }
{
    write_words(out, words)?;
    write_one(out, b'"')?;
    write_shown(alloc, out, bytes)?;
    write_one(out, b'"')?;
    Ok(())
}

/// Writes bytes as a text within quotes.
fn write_shown(alloc: Global, out: &mut Vec<u8>, bytes: &[u8]) -> Result<(), AllocError>
    ensures { OnOk result (out.new.items ≡ out.old.items ++ flat_map escaped (utf8_lossy bytes.now)) }
{
    let text = String::from_utf8_lossy(alloc, bytes)?;
    write_escaped(out, text.as_bytes())
}

/// Writes bytes of a text within quotes.
fn write_escaped(out: &mut Vec<u8>, bytes: &[u8]) -> Result<(), AllocError>
    ensures { OnOk result (out.new.items ≡ out.old.items ++ flat_map escaped bytes.now) }
{
    for byte in bytes {
        write_byte(out, *byte)?;
    }
    Ok(())
}

/// Writes a byte of a text within quotes.
fn write_byte(out: &mut Vec<u8>, byte: u8) -> Result<(), AllocError>
    ensures { OnOk result (out.new.items ≡ out.old.items ++ escaped byte) }
{
    match byte {
        b'"' => write_words(out, "\\\""),
        b'\\' => write_words(out, "\\\\"),
        8 => write_words(out, "\\b"),
        b'\t' => write_words(out, "\\t"),
        b'\n' => write_words(out, "\\n"),
        12 => write_words(out, "\\f"),
        b'\r' => write_words(out, "\\r"),
        0..=31 => write_control(out, byte),
        _ => write_one(out, byte),
    }
}

/// Writes a control byte by its number.
fn write_control(out: &mut Vec<u8>, byte: u8) -> Result<(), AllocError>
    ensures { OnOk result (out.new.items ≡ out.old.items ++ codes "\\u00"
        ++ (hex_digit (byte / 16) ∷ hex_digit (byte % 16) ∷ [])) }
{
    write_words(out, "\\u00")?;
    write_one(out, hex_digit(byte / 16))?;
    write_one(out, hex_digit(byte % 16))?;
    Ok(())
}

/// Writes a byte as it is.
fn write_one(out: &mut Vec<u8>, byte: u8) -> Result<(), AllocError>
    ensures { OnOk result (out.new.items ≡ out.old.items ++ byte ∷ []) }
{
    out.push(byte)?;
    Ok(())
}

/// A hexadecimal digit.
fn hex_digit(digit: u8) -> u8
    requires { digit < 16 }
    ensures { result ≡ hex_digit digit }
{
    if digit < 10 {
        b'0' + digit
    } else {
        b'a' - 10 + digit
    }
}
