//! Writes traces as a stream.
ghost use Rattle.std.specs.Prelude.{◌≡◌, ◌++◌, IfOk, OnOk, map, option_map};
ghost use Rattle.ld_trace.specs.Sources.{plain};
ghost use Rattle.ld_origin.specs.Origin.{mark_of, marked, plain_home};
ghost use Rattle.ld_reduce.specs.Written.{ended, header, is_ended, trace_text, written};

use ld_origin::{Home, lacking, write_origin};
use ld_trace::Source;
use std::alloc::{AllocError, Global};

/// Whether the last line has its LF, or there is no line.
pub fn is_ended(bytes: &[u8]) -> bool
    ensures { result ≡ is_ended bytes.now }
{
    bytes.is_empty() || bytes.ends_with(b"\n")
}

/// Puts these bytes behind others, with an LF where their last line has none.
///
/// # Errors
///
/// `AllocError` where a growth of memory was refused.
pub fn append_ended(all: &mut Vec<u8>, bytes: &[u8]) -> Result<(), AllocError>
    ensures { OnOk result (all.new.items ≡ all.old.items ++ ended bytes.now) }
{
    all.extend_from_slice(bytes)?;
    if !is_ended(bytes) {
        all.push(b'\n')?;
    }
    Ok(())
}

/// Writes the header of a trace of this label.
fn write_header(text: &mut Vec<u8>, label: &[u8]) -> Result<(), AllocError>
    ensures { OnOk result (text.new.items ≡ text.old.items ++ header label.now) }
{
    text.extend_from_slice(b"trace ")?;
    text.extend_from_slice(label)?;
    text.push(b'\n')?;
    Ok(())
}

/// Writes the line that says that a header stands there, if it is to be said.
fn write_mark(text: &mut Vec<u8>, home: Option<Home<'_>>) -> Result<(), AllocError>
    ensures { OnOk result (text.new.items
        ≡ text.old.items ++ mark_of (option_map plain_home home.entry)) }
{
    match home {
        Some(home) => write_origin(text, home),
        None => Ok(()),
    }
}

/// Writes a trace: its header; where that stands, if it is known of the trace's number and the trace doesn't say where
/// it comes from; and its lines as they stand, of which the last one has its LF.
fn write_trace(
    text: &mut Vec<u8>,
    source: &Source<'_>,
    homes: &[Home<'_>],
) -> Result<(), AllocError>
    ensures { OnOk result (text.new.items
        ≡ text.old.items ++ trace_text (marked (map plain_home homes.now) (plain source.now))) }
{
    write_header(text, source.name)?;
    write_mark(text, lacking(source, homes))?;
    append_ended(text, source.bytes)
}

/// The stream of these traces, one behind another, each of which says where it comes from, if it did or its home is
/// known.
///
/// # Errors
///
/// `AllocError` where a growth of memory was refused.
pub fn write_traces(
    alloc: Global,
    sources: &[Source<'_>],
    homes: &[Home<'_>],
) -> Result<Vec<u8>, AllocError>
    ensures { IfOk result (λ text. text.items
        ≡ written (map (marked (map plain_home homes.now)) (map plain sources.now))) }
{
    let mut text = Vec::new(alloc);
    for source in sources {
        write_trace(&mut text, source, homes)?;
    }
    Ok(text)
}
