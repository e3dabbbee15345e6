//! Cuts a stream into its traces.
ghost use Rattle.std.specs.Prelude.{◌≡◌, ◌+◌, ◌++◌, ◌≤◌, [], All, Err, IfErr, IfOk, IfSome, MatchOption, None, OnErr, Some, codes, drop, length, map, slice_get};
ghost use Rattle.std.specs.List.{concat, prefix_len, take_while};
ghost use Rattle.std.specs.Option.{option_map};
ghost use Rattle.ld_trace.specs.Lines.{lines, says_nothing};
ghost use Rattle.ld_trace.specs.Sources.{AreNumbered, Fits, fields_of, headers_before, is_header, is_other, label_of, line_faults, opened_at, plain, sections, sources, stream_fault};
ghost use Rattle.ld_trace.specs.Inner.Splitting.{AreSkipped, IsCutAt, IsHead, given_from};

use crate::front::{Ends, behind_end, next_word};
use crate::line::{begins_comment, first_field_byte, is_word, next_field, next_line, text};
use crate::others::{Rest, skip_others};
use crate::source::{LONGEST_STREAM, MOST_TRACES, Source, StreamFault};
use std::alloc::Global;

/// Whether a line is a header, well formed or not.
fn is_header(line: &[u8]) -> bool
    ensures { result ≡ is_header line.now }
{
    let text = text(line);
    // Tells most lines from a header at once.
    if first_field_byte(text) != Some(b't') {
        return false;
    }
    match next_field(text) {
        Some((first, _)) => first == b"trace".as_slice(),
        None => false,
    }
}

/// Whether a line says nothing.
fn says_nothing(line: &[u8]) -> bool
    ensures { result ≡ says_nothing (fields_of line.now) }
{
    match next_field(text(line)) {
        Some((first, _)) => begins_comment(first),
        None => true,
    }
}

/// The label of a header, where it is well formed.
fn label(header: &[u8]) -> Option<&[u8]>
    ensures { option_map (λ name. name.now) result ≡ label_of (fields_of header.now) }
{
    let (_, rest) = next_field(text(header))?;
    let (name, rest) = next_field(rest)?;
    match next_field(rest) {
        None if is_word(name) => Some(name),
        _ => None,
    }
}

/// A header: its label, where it is well formed, and what follows its line.
#[derive(Clone, Copy)]
struct Head<'a> {
    label: Option<&'a [u8]>,
    rest: &'a [u8],
}

/// The first line, which is a header.
fn next_head(bytes: &[u8]) -> Option<Head<'_>>
    ensures { MatchOption result (bytes.now ≡ [])
        (λ head. IsHead bytes.now (option_map (λ name. name.now) head.label) head.rest.now) }
{
    if let Some(head) = plain_head(bytes) {
        return Some(head);
    }
    let (line, rest) = next_line(bytes)?;
    let label = label(line);
    Some(Head { label, rest })
}

/// What follows `trace` and one blank at the front.
#[inline(always)]
fn behind_trace(bytes: &[u8]) -> Option<&[u8]>
    ensures { IfSome result (λ rest. bytes.now ≡ codes "trace " ++ rest.now) }
{
    bytes.strip_prefix(b"trace ")
}

/// The same, where it is `trace LABEL` with one blank between and nothing else before its end. `None` says nothing.
#[inline(always)]
fn plain_head(bytes: &[u8]) -> Option<Head<'_>>
    ensures head { IfSome result (λ head. IsHead bytes.now (option_map (λ name. name.now) head.label) head.rest.now) }
    ensures header { IfSome result (λ _. prefix_len is_other (lines bytes.now) ≡ 0) }
{
    let after = behind_trace(bytes)?;
    let (name, after) = next_word(after, Ends::of(after))?;
    let rest = behind_end(after)?;
    Some(Head {
        label: Some(name),
        rest,
    })
}

/// The lines before the first header. They have to say nothing.
fn skip_preamble(bytes: &[u8]) -> Result<Rest<'_>, StreamFault>
    ensures cut { IfOk result (λ rest. IsCutAt (lines bytes.now) rest.count rest.bytes.now) }
    ensures no_header { IfOk result (λ rest. headers_before (lines bytes.now) rest.count ≡ 0) }
    ensures no_section { IfOk result (λ rest. let all = lines bytes.now in
        sections all ≡ given_from (opened_at all) all rest.count) }
    ensures within { IfOk result (λ rest. rest.count + length rest.bytes.now ≤ length bytes.now) }
    ensures fault { IfErr result (λ fault.
        slice_get (line_faults (lines bytes.now)) 0 ≡ Some fault) }
{
    let mut rest = bytes;
    let mut count = 0;
    while let Some((line, after)) = next_line(rest) {
        if is_header(line) {
            break;
        }
        count += 1;
        if !says_nothing(line) {
            return Err(StreamFault::NoHeader(count));
        }
        rest = after;
    }
    Ok(Rest { bytes: rest, count })
}

/// Some lines at the front of a stream, what stands after them, and how many they are.
#[derive(Clone, Copy)]
struct Front<'a> {
    bytes: &'a [u8],
    rest: &'a [u8],
    count: u64,
}

/// What follows the first line, where that is no header.
fn behind_other(bytes: &[u8]) -> Option<&[u8]>
    ensures { MatchOption result (prefix_len is_other (lines bytes.now) ≡ 0)
        (λ after. AreSkipped bytes.now 1 after.now) }
{
    if plain_head(bytes).is_some() {
        return None;
    }
    let (line, after) = next_line(bytes)?;
    if is_header(line) {
        return None;
    }
    Some(after)
}

/// The lines before the next header.
fn body(bytes: &[u8]) -> Front<'_>
    ensures bytes { result.bytes.now ≡ concat (take_while is_other (lines bytes.now)) }
    ensures rest { lines result.rest.now ≡ drop result.count (lines bytes.now) }
    ensures count { result.count ≡ prefix_len is_other (lines bytes.now) }
    ensures within { result.count + length result.rest.now ≤ length bytes.now }
    ensures own { length result.bytes.now ≤ length bytes.now }
{
    let first = skip_others(bytes);
    let mut rest = first.bytes;
    let mut count = first.count;
    while let Some(after) = behind_other(rest) {
        let ahead = skip_others(after);
        rest = ahead.bytes;
        count += 1 + ahead.count;
    }
    let (bytes, _) = bytes.split_at(bytes.len() - rest.len());
    Front { bytes, rest, count }
}

/// The traces of a stream, in order, each as the section behind its header. Where the stream has a
/// fault there are none, and the fault is `TooLong`, or else that of the first line that has one, of two
/// on one line `BadHeader`. Want of memory is answered only for a stream without fault.
pub fn split<'a>(alloc: Global, bytes: &'a [u8]) -> Result<Vec<Source<'a>>, StreamFault>
    ensures fault { IfSome (stream_fault bytes.entry.now) (λ fault. result ≡ Err fault) }
    ensures memory { stream_fault bytes.entry.now ≡ None →
        OnErr result (result ≡ Err StreamFault.Memory) }
    ensures sources { IfOk result (λ all. map plain all.items ≡ sources bytes.entry.now) }
    ensures numbered { IfOk result (λ all. AreNumbered (map plain all.items)) }
    ensures fit { IfOk result (λ all. All (λ source. Fits (plain source)) all.items) }
    ensures few { IfOk result (λ all. length all.items ≤ MOST_TRACES) }
{
    if bytes.len() > LONGEST_STREAM {
        return Err(StreamFault::TooLong);
    }
    let mut rest = skip_preamble(bytes)?;
    let mut sources = Vec::new(alloc);
    let mut number = 0;
    let mut refused = false;
    while let Some(head) = next_head(rest.bytes) {
        let Some(name) = head.label else {
            return Err(StreamFault::BadHeader(rest.count + 1));
        };
        if number == MOST_TRACES {
            return Err(StreamFault::TooManyTraces);
        }
        let body = body(head.rest);
        let source = Source {
            number,
            name,
            first_line: rest.count + 2,
            bytes: body.bytes,
        };
        // A fault of a later line comes before want of memory.
        refused |= sources.push(source).is_err();
        number += 1;
        rest = Rest {
            bytes: body.rest,
            count: rest.count + 1 + body.count,
        };
    }
    if refused {
        return Err(StreamFault::Memory);
    }
    Ok(sources)
}
