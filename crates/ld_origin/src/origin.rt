//! Where traces come from, as the line behind a header may say: `# from FILE LINE`.
ghost use Rattle.std.specs.Prelude.{◌≡◌, ◌<◌, ◌&&◌, ◌++◌, IfSome, OnOk, length, map, nat_eq, not, option_map, slice_get};
ghost use Rattle.std.specs.Char.{is_ascii_digit, is_ascii_graphic};
ghost use Rattle.std.specs.List.{list_all, position};
ghost use Rattle.ld_trace.specs.Lines.{is_empty};
ghost use Rattle.ld_trace.specs.Sources.{plain};
ghost use Rattle.ld_origin.specs.Origin.{hex_digit, is_space, lacking, origin_by, origin_from, origin_line, origin_of, origin_said, plain_home, plain_origin, said_behind, spelled, spelled_byte};

use ld_trace::{Source, next_line, text};
use std::alloc::AllocError;
use std::io::Write;

/// Where the header of a trace stands.
#[derive(Clone, Copy, Debug, PartialEq, Eq)]
pub struct Home<'a> {
    /// The name of the file.
    pub file: &'a str,
    /// The line of this file, counted from 1.
    pub line: u64,
}

/// Where the header of a trace stands, as the trace says it.
#[derive(Clone, Copy, Debug, PartialEq, Eq)]
pub struct Origin<'a> {
    /// The name of the file as it is spelled: graphic bytes alone, where `%` and two digits of base 16 are any other.
    pub file: &'a [u8],
    /// The digits of the line of this file.
    pub line: &'a [u8],
}

/// Where a trace with these lines comes from, if the first of them says it.
pub fn origin_of(bytes: &[u8]) -> Option<Origin<'_>>
    ensures { option_map plain_origin result ≡ origin_of bytes.now }
{
    let (first, _) = next_line(bytes)?;
    read_origin(text(first))
}

/// What a line says, without its end, where it is `# from FILE LINE`.
fn read_origin(line: &[u8]) -> Option<Origin<'_>>
    ensures { option_map plain_origin result ≡ origin_said line.now }
{
    let said = line.strip_prefix(b"# from ")?;
    read_said(said)
}

/// What stands behind `# from `, where it is `FILE LINE`.
fn read_said(said: &[u8]) -> Option<Origin<'_>>
    ensures { option_map plain_origin result ≡ said_behind said.now }
{
    let space = space_at(said)?;
    let file = &said[..space];
    let line = &said[space + 1..];
    if is_graphic(file) && !line.is_empty() && is_numeral(line) {
        Some(Origin { file, line })
    } else {
        None
    }
}

/// The place of the first space.
fn space_at(said: &[u8]) -> Option<usize>
    ensures first { result ≡ position is_space said.now }
    ensures within { IfSome result (λ place. place < length said.now) }
{
    said.iter().position(|byte| *byte == b' ')
}

/// Whether all bytes are graphic.
fn is_graphic(bytes: &[u8]) -> bool
    ensures { result ≡ list_all is_ascii_graphic bytes.now }
{
    bytes.iter().all(|byte| byte.is_ascii_graphic())
}

/// Whether all bytes are digits.
fn is_numeral(bytes: &[u8]) -> bool
    ensures { result ≡ list_all is_ascii_digit bytes.now }
{
    bytes.iter().all(|byte| byte.is_ascii_digit())
}

/// Where the header of a trace stands, if that is known of its number, and the trace doesn't say where it comes from.
pub fn lacking<'h>(source: &Source<'_>, homes: &[Home<'h>]) -> Option<Home<'h>>
    ensures { option_map plain_home result
        ≡ lacking (slice_get (map plain_home homes.now) source.now.number) (origin_of source.now.bytes.now) }
{
    match origin_of(source.bytes) {
        Some(_) => None,
        None => home_of(source.number, homes),
    }
}

/// The home of the trace with this number.
fn home_of<'h>(number: u64, homes: &[Home<'h>]) -> Option<Home<'h>>
    ensures { option_map plain_home result ≡ slice_get (map plain_home homes.now) number }
{
    let home = homes.get(number as usize)?;
    Some(*home)
}

/// Writes the line that says that a header stands there.
pub fn write_origin(text: &mut Vec<u8>, home: Home<'_>) -> Result<(), AllocError>
    ensures { OnOk result (text.new.items ≡ text.old.items ++ origin_line (origin_from (plain_home home.entry))) }
{
    text.extend_from_slice(b"# from ")?;
    write_name(text, home.file.as_bytes())?;
    let line = home.line;
    writeln!(text, " {line}").map_err(|_| AllocError)
}

/// Writes the name of a file as it is spelled.
fn write_name(text: &mut Vec<u8>, name: &[u8]) -> Result<(), AllocError>
    ensures { OnOk result (text.new.items ≡ text.old.items ++ spelled name.now) }
{
    for byte in name {
        write_byte(text, *byte)?;
    }
    Ok(())
}

/// Writes a byte of the name of a file.
fn write_byte(text: &mut Vec<u8>, byte: u8) -> Result<(), AllocError>
    ensures { OnOk result (text.new.items ≡ text.old.items ++ spelled_byte byte) }
{
    if byte.is_ascii_graphic() && byte != b'%' {
        text.push(byte)?;
        return Ok(());
    }
    text.push(b'%')?;
    text.push(hex_digit(byte / 16))?;
    text.push(hex_digit(byte))?;
    Ok(())
}

/// The last digit of base 16.
fn hex_digit(number: u8) -> u8
    ensures { result ≡ hex_digit number }
{
    let digit = number % 16;
    if digit < 10 {
        b'0' + digit
    } else {
        b'7' + digit
    }
}
