//! Words and numbers of a line. Each call answers `AllocError` if memory was refused.
ghost use Rattle.std.specs.Prelude.{◌≡◌, ◌++◌, OnOk, decimal};
ghost use Rattle.std.specs.Fmt.{signed_decimal};
ghost use Rattle.ld_printed.specs.Printed.{bit, hex};

use std::alloc::AllocError;
use std::io::Write;

/// Writes these words.
pub(crate) fn write_words(out: &mut Vec<u8>, words: &str) -> Result<(), AllocError>
    ensures { OnOk result (out.new.items ≡ out.old.items ++ words.now) }
{
    out.extend_from_slice(words.as_bytes())
}

/// Writes a number behind these words.
pub(crate) fn write_number(out: &mut Vec<u8>, words: &str, number: u64) -> Result<(), AllocError>
    ensures { OnOk result (out.new.items ≡ out.old.items ++ words.now ++ decimal number) }
{
    write!(out, "{words}{number}").map_err(|_| AllocError)
}

/// Writes a number with its sign behind these words.
pub(crate) fn write_signed(out: &mut Vec<u8>, words: &str, number: i32) -> Result<(), AllocError>
    ensures { OnOk result (out.new.items ≡ out.old.items ++ words.now ++ signed_decimal number) }
{
    write!(out, "{words}{number}").map_err(|_| AllocError)
}

/// Writes an address behind these words.
pub(crate) fn write_hex(out: &mut Vec<u8>, words: &str, address: u64) -> Result<(), AllocError>
    ensures { OnOk result (out.new.items ≡ out.old.items ++ words.now ++ hex address) }
{
    write!(out, "{words}{address:016x}").map_err(|_| AllocError)
}

/// Writes behind these words 1 for true and 0 for false.
pub(crate) fn write_bit(out: &mut Vec<u8>, words: &str, is_set: bool) -> Result<(), AllocError>
    ensures { OnOk result (out.new.items ≡ out.old.items ++ words.now ++ bit is_set) }
{
    write_words(out, words)?;
    write_words(out, if is_set { "1" } else { "0" })
}
