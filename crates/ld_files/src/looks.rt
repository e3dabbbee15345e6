//! What a file looks like that is no stream of traces.
ghost use Rattle.std.specs.Prelude.{◌≡◌, IfOk, take};
ghost use Rattle.ld_files.specs.Looks.{IsLook, first_said, kind_of, packed, unpacked};

use ld_baseline::is_comment;
use ld_trace::{next_line, text};
use std::alloc::{AllocError, Global};
use std::fmt;
use thiserror::Error;

/// How many bytes of a line are shown.
pub const MOST_SHOWN: usize = 80;

/// What a file is that isn't a stream, if its first bytes tell it.
#[derive(Clone, Copy, Debug, Error)]
pub enum Kind {
    /// What xz made.
    #[error("it looks like a file that xz made: decompress it first")]
    Xz,
    /// What gzip made.
    #[error("it looks like a file that gzip made: decompress it first")]
    Gzip,
    /// What zstd made.
    #[error("it looks like a file that zstd made: decompress it first")]
    Zstd,
    /// What bzip2 made.
    #[error("it looks like a file that bzip2 made: decompress it first")]
    Bzip2,
    /// A zip archive.
    #[error("it looks like a zip archive: unpack it first")]
    Zip,
    /// A text in UTF-16.
    #[error("it looks like a text in UTF-16: convert it to UTF-8 first")]
    Utf16,
    /// A text with a byte order mark.
    #[error("it begins with a byte order mark: take it away first")]
    Marked,
    /// What trace-cmd records.
    #[error("it looks like a recording of trace-cmd, of which record/kernel/convert makes a stream")]
    TraceDat,
    /// What ftrace or trace-cmd print.
    #[error("it looks like text of ftrace, of which record/kernel/convert makes a stream")]
    Ftrace,
    /// A report of lockcheck.
    #[error("it looks like a report, and not like a stream of traces")]
    Report,
    /// The map of a recorded program.
    #[error("it looks like the map of a stream, which --map takes")]
    Map,
}

/// What a file looks like that isn't a stream.
#[derive(Debug, Drop)]
pub enum Looks {
    /// This.
    Like(Kind),
    /// Another text, whose first line that says something begins with these bytes.
    Line(Vec<u8>),
}

impl Looks {
    /// What a file with these bytes looks like.
    ///
    /// # Errors
    ///
    /// `AllocError` where a growth of memory was refused.
    pub fn of(alloc: Global, bytes: &[u8]) -> Result<Looks, AllocError>
        ensures { IfOk result (IsLook bytes.now) }
    {
        match kind_of(bytes) {
            Some(kind) => Ok(Looks::Like(kind)),
            None => {
                let shown = front(first_said(bytes));
                Ok(Looks::Line(shown.to_vec(alloc)?))
            }
        }
    }
}

/// What a file is that begins so, if these bytes tell it.
fn kind_of(bytes: &[u8]) -> Option<Kind>
    ensures { result ≡ kind_of bytes.now }
{
    match packed(bytes) {
        Some(kind) => Some(kind),
        None => unpacked(bytes),
    }
}

/// What made a file that begins so, if it has to be unpacked.
fn packed(bytes: &[u8]) -> Option<Kind>
    ensures { result ≡ packed bytes.now }
{
    if bytes.starts_with(b"\xfd7zXZ\0") {
        Some(Kind::Xz)
    } else if bytes.starts_with(b"\x1f\x8b") {
        Some(Kind::Gzip)
    } else if bytes.starts_with(b"\x28\xb5\x2f\xfd") {
        Some(Kind::Zstd)
    } else if bytes.starts_with(b"BZh") {
        Some(Kind::Bzip2)
    } else if bytes.starts_with(b"PK\x03\x04") {
        Some(Kind::Zip)
    } else {
        None
    }
}

/// What another file is that begins so, if these bytes tell it.
fn unpacked(bytes: &[u8]) -> Option<Kind>
    ensures { result ≡ unpacked bytes.now }
{
    if bytes.starts_with(b"\xff\xfe") || bytes.starts_with(b"\xfe\xff") {
        Some(Kind::Utf16)
    } else if bytes.starts_with(b"\xef\xbb\xbf") {
        Some(Kind::Marked)
    } else if bytes.starts_with(b"\x17\x08Dtracing") {
        Some(Kind::TraceDat)
    } else if bytes.starts_with(b"# tracer: ") || bytes.starts_with(b"cpus=") {
        Some(Kind::Ftrace)
    } else if bytes.starts_with(b"traces ") {
        Some(Kind::Report)
    } else if bytes.starts_with(b"places ") {
        Some(Kind::Map)
    } else {
        None
    }
}

/// The first line, without its end, that says something; empty where there is none.
fn first_said(bytes: &[u8]) -> &[u8]
    ensures { result.now ≡ first_said bytes.now }
{
    let mut rest = bytes;
    while let Some((line, after)) = next_line(rest) {
        let text = text(line);
        if !is_comment(text) {
            return text;
        }
        rest = after;
    }
    &[]
}

/// The bytes of a line that are shown.
pub fn front(line: &[u8]) -> &[u8]
    ensures { result.now ≡ take MOST_SHOWN line.now }
{
    if line.len() > MOST_SHOWN {
        &line[..MOST_SHOWN]
    } else {
        line
    }
}

impl fmt::Display for Looks {
    fn fmt<W: fmt::Write>(&self, f: &mut fmt::Formatter<W>) -> fmt::Result {
        match self {
            Looks::Like(kind) => write!(f, "{kind}"),
            Looks::Line(line) => {
                write!(f, "no line \"trace LABEL\" is above this line: \"")?;
                for byte in line {
                    write_shown(f, *byte)?;
                }
                write!(f, "\"")
            }
        }
    }
}

/// Writes a byte of a line: one that shows nothing, a quote and a backslash by its number.
pub fn write_shown<W: fmt::Write>(f: &mut fmt::Formatter<W>, byte: u8) -> fmt::Result {
    if (byte.is_ascii_graphic() || byte == b' ') && byte != b'"' && byte != b'\\' {
        let shown = byte as char;
        write!(f, "{shown}")
    } else {
        write!(f, "\\x{byte:02x}")
    }
}
