//! Reads files, and puts the streams that they are one behind another, with where their lines stand.
ghost use Rattle.std.specs.Prelude.{◌≡◌, ◌≢◌, ◌++◌, ◌∷◌, [], Err, IfOk, IfSome, IsOk, MatchResult, None, OnErr, OnOk, true, false};
ghost use Rattle.std.specs.Bool.{OnTrue};
ghost use Rattle.std.specs.Char.{is_ascii_graphic};
ghost use Rattle.std.specs.List.{list_all};
ghost use Rattle.ld_trace.specs.Sources.{is_header, stream_fault};
ghost use Rattle.ld_reduce.specs.Written.{ended};
ghost use Rattle.ld_files.specs.Streams.{fault_of_file, fault_of_known, has_trace, line_count, looking};

use crate::fault::Fault;
use crate::lines::line_count;
use crate::looks::Looks;
use ld_baseline::{is_comment, unknown_line};
use ld_commands::STANDARD_INPUT;
use ld_io::{ReadFault, Std, read_all};
use ld_places::Places;
use ld_reduce::{append_ended, is_ended};
use ld_trace::{LONGEST_STREAM, StreamFault, next_line, split, text};
use std::alloc::{AllocError, Global};
use std::rt::Files;
use std::{fs, io, mem};

/// Files that were read as one stream.
#[derive(Drop)]
pub struct Streams<'a> {
    /// The stream.
    pub bytes: Vec<u8>,
    /// Where its lines stand in the files.
    pub places: Places<'a>,
    /// How many lines each file has.
    pub lines: Vec<u64>,
}

/// The known text of this name. May wait.
///
/// # Errors
///
/// Those of `read_file` and of `fault_of_known`.
pub fn read_known<'a, R: Files + io::Input + AllocGlobal>(
    rt: &R,
    name: &'a str,
) -> Result<Vec<u8>, Fault<'a>>
    ensures { IfOk result (λ known. fault_of_known name.entry known.items ≡ None) }
{
    let known = read_file(rt, name)?;
    match fault_of_known(name, &known) {
        Some(fault) => Err(fault.quoting(rt.alloc(), &known)),
        None => Ok(known),
    }
}

/// Why a text isn't taken as the known one of this name: it is longer than a stream may be, of which no
/// more would be read, or has a line that says something and is no line of a report.
fn fault_of_known<'a>(name: &'a str, known: &[u8]) -> Option<Fault<'a>>
    ensures { result ≡ fault_of_known name.entry known.now }
{
    if known.len() > LONGEST_STREAM {
        return Some(Fault::File(name, StreamFault::TooLong));
    }
    match unknown_line(known) {
        Some(line) => Some(Fault::UnknownLine(name, line)),
        None => None,
    }
}

/// The bytes of a file, to its end, or the first of them where it has more than the longest stream: one
/// more than that has. May wait.
///
/// # Errors
///
/// `Open` where it can't be opened, `Read` where a read failed, and `Memory` where a growth of memory was
/// refused.
pub fn read_file<'a, R: Files + io::Input + AllocGlobal>(
    rt: &R,
    name: &'a str,
) -> Result<Vec<u8>, Fault<'a>> {
    if name == STANDARD_INPUT {
        return read_whole(rt.alloc(), rt.reader(), name);
    }
    match fs::open(rt, name) {
        Ok(file) => read_whole(rt.alloc(), file, name),
        Err(error) => Err(Fault::Open(name, error)),
    }
}

/// The bytes of an opened file, as many as `read_file` has. May wait.
fn read_whole<'a, T: io::Read + Drop>(
    alloc: Global,
    file: T,
    name: &'a str,
) -> Result<Vec<u8>, Fault<'a>> {
    match read_all(alloc, &mut Std::new(file)) {
        Ok(bytes) => Ok(bytes),
        Err(ReadFault::Read) => Err(Fault::Read(name)),
        Err(ReadFault::Memory) => Err(Fault::Memory),
    }
}

/// The streams of these files as one. May wait.
///
/// # Errors
///
/// Those of `read_file` and of `add`, by the first file that has one. A fault of the stream that a lone file is may
/// be left to whoever cuts it, so that the file isn't cut twice.
pub fn read_streams<'a, R: Files + io::Input + AllocGlobal>(
    rt: &R,
    names: &[&'a str],
) -> Result<Streams<'a>, Fault<'a>> {
    let mut streams = Streams {
        bytes: Vec::new(rt.alloc()),
        places: Places::new(rt.alloc()),
        lines: Vec::new(rt.alloc()),
    };
    let is_alone = names.len() == 1;
    for name in names {
        read_into(rt, &mut streams, *name, is_alone)?;
    }
    Ok(streams)
}

/// Reads a file, and puts its stream behind others, or alone. May wait.
///
/// # Errors
///
/// Those of `read_file`, and of `add_alone` or `add`.
fn read_into<'a, R: Files + io::Input + AllocGlobal>(
    rt: &R,
    streams: &mut Streams<'a>,
    name: &'a str,
    is_alone: bool,
) -> Result<(), Fault<'a>> {
    let mut bytes = read_file(rt, name)?;
    let looks = Looks::of(rt.alloc(), &bytes)?;
    let added = if is_alone {
        add_alone(rt.alloc(), streams, name, &mut bytes)
    } else {
        add(rt.alloc(), streams, name, &mut bytes)
    };
    match told_with(added, looks) {
        Ok(()) => Ok(()),
        Err(fault) => Err(fault.quoting(rt.alloc(), &bytes)),
    }
}

/// How it went to add a file that looks so.
pub fn told_with<'a>(added: Result<(), Fault<'a>>, looks: Looks) -> Result<(), Fault<'a>>
    ensures { MatchResult added.entry (λ _. IsOk result) (λ fault. result ≡ Err (looking looks fault)) }
{
    match added {
        Ok(()) => Ok(()),
        Err(fault) => Err(fault.looking(looks)),
    }
}

/// Puts the stream of a file behind others, and takes its bytes. Its last line ends with it. A file with a fault
/// keeps its bytes.
///
/// # Errors
///
/// Exactly where the stream has a fault by itself, with the file's name and its line; `NoTrace` where it
/// has none and no trace either; or `Memory` where a growth of memory was refused.
fn add<'a>(
    alloc: Global,
    streams: &mut Streams<'a>,
    name: &'a str,
    bytes: &mut Vec<u8>,
) -> Result<(), Fault<'a>>
    ensures added { OnOk result (streams.new.bytes.items
        ≡ streams.old.bytes.items ++ ended bytes.old.items) }
    ensures placed { OnOk result (streams.new.places ≡ streams.old.places
        ++ record { name = name.entry.now; lines = line_count bytes.old.items } ∷ []) }
    ensures sound { OnOk result (stream_fault bytes.old.items ≡ None) }
    ensures fault { IfSome (stream_fault bytes.old.items) (λ fault.
        result ≡ Err (fault_of_file name.entry fault)) }
    ensures traces { OnOk result (has_trace bytes.old.items ≡ true) }
    ensures no_trace { stream_fault bytes.old.items ≡ None → has_trace bytes.old.items ≡ false →
        result ≢ Err Fault.Memory → result ≡ Err (Fault.NoTrace name.entry) }
    ensures memory { stream_fault bytes.old.items ≡ None → has_trace bytes.old.items ≡ true →
        OnErr result (result ≡ Err Fault.Memory) }
{
    match has_trace(alloc, bytes) {
        Ok(true) => {
            let bytes = mem::replace(bytes, Vec::new(alloc));
            Ok(put(streams, name, bytes)?)
        }
        Ok(false) => Err(Fault::NoTrace(name)),
        Err(fault) => Err(Fault::of_file(name, fault)),
    }
}

/// The same of a file that stands alone, but that a fault of its stream may be left to whoever cuts it.
///
/// # Errors
///
/// Those of `add`.
fn add_alone<'a>(
    alloc: Global,
    streams: &mut Streams<'a>,
    name: &'a str,
    bytes: &mut Vec<u8>,
) -> Result<(), Fault<'a>>
    ensures added { OnOk result (streams.new.bytes.items
        ≡ streams.old.bytes.items ++ ended bytes.old.items) }
    ensures placed { OnOk result (streams.new.places ≡ streams.old.places
        ++ record { name = name.entry.now; lines = line_count bytes.old.items } ∷ []) }
    ensures fault { IfSome (stream_fault bytes.old.items) (λ fault.
        OnErr result (result ≢ Err Fault.Memory → result ≡ Err (fault_of_file name.entry fault))) }
    ensures traces { OnOk result (has_trace bytes.old.items ≡ true) }
    ensures no_trace { stream_fault bytes.old.items ≡ None → has_trace bytes.old.items ≡ false →
        result ≢ Err Fault.Memory → result ≡ Err (Fault.NoTrace name.entry) }
    ensures memory { stream_fault bytes.old.items ≡ None → has_trace bytes.old.items ≡ true →
        OnErr result (result ≡ Err Fault.Memory) }
{
    if has_plain_header(bytes) {
        let bytes = mem::replace(bytes, Vec::new(alloc));
        return Ok(put(streams, name, bytes)?);
    }
    add(alloc, streams, name, bytes)
}

/// Puts the stream of a file behind others. Its last line ends with it.
fn put<'a>(streams: &mut Streams<'a>, name: &'a str, bytes: Vec<u8>) -> Result<(), AllocError>
    ensures added { OnOk result (streams.new.bytes.items
        ≡ streams.old.bytes.items ++ ended bytes.items) }
    ensures counted { OnOk result (streams.new.lines.items
        ≡ streams.old.lines.items ++ line_count bytes.items ∷ []) }
    ensures placed { OnOk result (streams.new.places ≡ streams.old.places
        ++ record { name = name.entry.now; lines = line_count bytes.items } ∷ []) }
{
    let lines = line_count(&bytes);
    streams.lines.push(lines)?;
    streams.places.push(name, lines)?;
    append(&mut streams.bytes, bytes)
}

/// Whether the first line of a stream that says something is a header in its plainest form, as in most. `false` says
/// nothing.
fn has_plain_header(bytes: &[u8]) -> bool
    ensures { OnTrue result (has_trace bytes.now ≡ true) }
{
    let mut rest = bytes;
    while let Some((line, after)) = next_line(rest) {
        if is_plain_header(line) {
            return true;
        }
        // What stands before every header is found where the file is cut, with the file's looks.
        if !is_comment(text(line)) {
            return false;
        }
        rest = after;
    }
    false
}

/// Whether a line is `trace LABEL` with one blank between and nothing else before its LF. `false` says nothing.
pub fn is_plain_header(line: &[u8]) -> bool
    ensures { OnTrue result (is_header line.now ≡ true) }
{
    let Some(behind) = line.strip_prefix(b"trace ") else {
        return false;
    };
    let Some((end, label)) = behind.split_last() else {
        return false;
    };
    if *end != b'\n' || label.is_empty() || !is_graphic(label) {
        return false;
    }
    true
}

/// Whether no byte stands outside words.
fn is_graphic(bytes: &[u8]) -> bool
    ensures { result ≡ list_all is_ascii_graphic bytes.now }
{
    bytes.iter().all(|byte| byte.is_ascii_graphic())
}

/// Whether a stream has a trace.
///
/// # Errors
///
/// Those of `split`.
fn has_trace(alloc: Global, bytes: &[u8]) -> Result<bool, StreamFault>
    ensures has { IfOk result (λ has. has ≡ has_trace bytes.now) }
    ensures fault { IfSome (stream_fault bytes.now) (λ fault. result ≡ Err fault) }
    ensures memory { stream_fault bytes.now ≡ None →
        OnErr result (result ≡ Err StreamFault.Memory) }
{
    let sources = split(alloc, bytes)?;
    Ok(!sources.is_empty())
}

/// Puts these bytes behind others, with an LF where their last line has none. Where there are no others, none
/// of the bytes is copied.
fn append(all: &mut Vec<u8>, bytes: Vec<u8>) -> Result<(), AllocError>
    ensures { OnOk result (all.new.items ≡ all.old.items ++ ended bytes.items) }
{
    if !all.is_empty() {
        return append_ended(all, &bytes);
    }
    *all = bytes;
    if !is_ended(all) {
        all.push(b'\n')?;
    }
    Ok(())
}
