//! Files that are reduced in groups, so that not all of them are held at once.
ghost use Rattle.std.specs.Prelude.{◌≡◌, ◌≢◌, ◌≤◌, ◌<◌, ◌+◌, ◌++◌, ◌||◌, ◌==◌, ◌↔◌, ℕ, All, AllPairs, List, [], Err, IfOk, IfSome, IsErr, None, OnErr, OnOk, Some, false, length, map, not, true};
ghost use Rattle.std.specs.Bool.{OnTrue};
ghost use Rattle.std.specs.Io.KnownBytes.{Appends};
ghost use Rattle.std.specs.List.Sorted.{IsPermutation};
ghost use Rattle.ld_trace.specs.Sources.{PlainSource, plain, sources, stream_fault};
ghost use Rattle.ld_check.specs.OfReport.OfBook.Totals.{refused_count};
ghost use Rattle.ld_io.specs.Transfer.{AppendsPart};
ghost use Rattle.ld_origin.specs.Origin.{plain_home};
ghost use Rattle.ld_reduce.specs.Reduction.{IsReductionOf};
ghost use Rattle.ld_reduce.specs.Written.{IsTrace, ended};
ghost use Rattle.lockgraph.specs.declared.groups.Group.{Group};
ghost use Rattle.lockgraph.specs.Groups.{BothFollow, Homed, IsClosed, IsReducedAll, Stands, StartsWithHeader, behind, file_read, verdict_of_lost};

use crate::found::{found_in, found_left};
use crate::reduce::{Keeping, ReduceFault, fault_of_reduce};
use ld_check::{Checked, MOST_WORKERS, NoGate, Verdict, check};
use ld_files::{Fault, Looks, is_plain_header, read_file, told_with};
use ld_io::{Output, send};
use ld_origin::Home;
use ld_reduce::{is_ended, reduction};
use ld_trace::{LONGEST_STREAM, MOST_TRACES, next_line};
use std::alloc::{AllocError, Global};
use std::io;
use std::rt::Files;
use std::sync::Wait;
use std::thread::Threads;

/// How many bytes of files are read behind what is left of others before all of it is reduced, if no more is left.
const MOST_READ: usize = 1 << 28;

/// Files that were read to be reduced: what is left of the first ones, and behind it the others as they are.
#[derive(Drop)]
pub struct Group<'a> {
    /// They are one stream, whose last line has its LF.
    pub bytes: Vec<u8>,
    /// Where the header of each of its traces stands, if that is wanted. Traces that are left are in no file: they say
    /// where they come from.
    pub homes: Vec<Home<'a>>,
    /// Whether a refused trace was left out.
    pub lost: bool,
    /// How many traces it has.
    traces: usize,
    /// How many of the bytes are left of files that were reduced.
    left: usize,
}

/// What is left of a stream.
#[derive(Drop)]
struct Left {
    text: Vec<u8>,
    /// How many of its traces were refused.
    refused: u64,
}

/// Reads these files in turn into a group. May wait.
///
/// # Errors
///
/// Those of `read_file` and of `add`, by the first file that has one.
pub fn read_group<'a, R: Files + io::Input + AllocGlobal + Threads + Wait + Sync>(
    rt: &R,
    names: &[&'a str],
    keeping: Keeping,
    workers: usize,
) -> Result<Group<'a>, Fault<'a>>
    requires { (1 ≤ workers) × (workers ≤ MOST_WORKERS) }
{
    let mut group = Group::new(rt.alloc());
    for name in names {
        let bytes = read_file(rt, *name)?;
        let looks = Looks::of(rt.alloc(), &bytes)?;
        let added = add(rt, rt.alloc(), &mut group, *name, bytes, keeping, workers);
        told_with(added, looks)?;
    }
    Ok(group)
}

impl<'a> Group<'a> {
    /// No file. Takes no memory.
    pub fn new(alloc: Global) -> Group<'a>
        ensures bytes { result.bytes.items ≡ [] }
        ensures homes { result.homes.items ≡ [] }
        ensures lost { result.lost ≡ false }
    {
        Group {
            bytes: Vec::new(alloc),
            homes: Vec::new(alloc),
            lost: false,
            traces: 0,
            left: 0,
        }
    }
}

/// Adds a file to a group. If both don't fit together, the group is reduced before; but what stands before the first
/// header of a file belongs to the trace before it, so a file that doesn't begin with a plain header is added as it is.
///
/// # Errors
///
/// Those of `found_in` and of `left_of`; `Memory` where a growth of memory was refused.
fn add<'a, R: Threads + Wait + Sync>(
    rt: &R,
    alloc: Global,
    group: &mut Group<'a>,
    name: &'a str,
    bytes: Vec<u8>,
    keeping: Keeping,
    workers: usize,
) -> Result<(), Fault<'a>>
    requires { (1 ≤ workers) × (workers ≤ MOST_WORKERS) }
    ensures { OnOk result ((all : Homed) → Stands keeping group.old all
        → Stands keeping group.new (behind all (file_read keeping.from name.entry.now (ended bytes.items)))) }
{
    let bytes = end(bytes)?;
    let found = match found_in(alloc, name, &bytes, keeping.from) {
        Ok(found) => found,
        Err(fault) => return Err(fault.quoting(alloc, &bytes)),
    };
    let homes = found.homes.as_slice();
    let traces = found.traces;
    let begins = begins_plainly(&bytes);
    if begins && !fits(group, bytes.len(), traces) {
        match add_behind_left(rt, alloc, group, bytes, homes, traces, keeping, workers) {
            Ok(()) => return Ok(()),
            Err(fault) => return Err(fault_of_reduce(fault)),
        }
    }
    Ok(append(group, bytes, homes, traces)?)
}

/// Puts a file with its traces behind what is left of a group.
///
/// # Errors
///
/// Those of `close`.
fn add_behind_left<'a, R: Threads + Wait + Sync>(
    rt: &R,
    alloc: Global,
    group: &mut Group<'a>,
    bytes: Vec<u8>,
    homes: &[Home<'a>],
    traces: usize,
    keeping: Keeping,
    workers: usize,
) -> Result<(), ReduceFault>
    requires { (1 ≤ workers) × (workers ≤ MOST_WORKERS) }
    ensures { OnOk result ((left : Group) × (IsClosed keeping group.old left
        × BothFollow left bytes.items (map plain_home homes.now) group.new)) }
{
    close(rt, alloc, group, keeping, workers)?;
    append(group, bytes, homes, traces)?;
    Ok(())
}

/// Whether so many bytes with so many traces may be held with a group.
fn fits(group: &Group<'_>, bytes: usize, traces: usize) -> bool {
    let held = group.bytes.len();
    let read = held.saturating_sub(group.left).saturating_add(bytes);
    held == group.left
        || read <= MOST_READ.max(group.left)
            && held.saturating_add(bytes) <= LONGEST_STREAM
            && group.traces.saturating_add(traces) <= MOST_TRACES as usize
}

/// Whether the first line is a header in its plainest form. `false` says nothing.
fn begins_plainly(bytes: &[u8]) -> bool
    ensures { OnTrue result (StartsWithHeader bytes.now) }
{
    match next_line(bytes) {
        Some((line, _)) => is_plain_header(line),
        None => false,
    }
}

/// Puts a file with its traces behind a group.
fn append<'a>(
    group: &mut Group<'a>,
    bytes: Vec<u8>,
    homes: &[Home<'a>],
    traces: usize,
) -> Result<(), AllocError>
    ensures { OnOk result
        (BothFollow group.old bytes.items (map plain_home homes.now) group.new) }
{
    put(&mut group.bytes, bytes)?;
    group.homes.extend_from_slice(homes)?;
    group.traces = group.traces.saturating_add(traces);
    Ok(())
}

/// Puts these bytes behind others. Where there are no others, none of the bytes is copied.
fn put(all: &mut Vec<u8>, bytes: Vec<u8>) -> Result<(), AllocError>
    ensures { OnOk result (all.new.items ≡ all.old.items ++ bytes.items) }
{
    if !all.is_empty() {
        return all.extend_from_slice(&bytes);
    }
    *all = bytes;
    Ok(())
}

/// The same bytes, with an LF where the last line has none.
fn end(mut bytes: Vec<u8>) -> Result<Vec<u8>, AllocError>
    ensures { IfOk result (λ all. all.items ≡ ended bytes.items) }
{
    if !is_ended(&bytes) {
        bytes.push(b'\n')?;
    }
    Ok(bytes)
}

/// Replaces a group by what is left of it. May wait.
///
/// # Errors
///
/// Those of `left_of`. Nothing has changed then.
fn close<'a, R: Threads + Wait + Sync>(
    rt: &R,
    alloc: Global,
    group: &mut Group<'a>,
    keeping: Keeping,
    workers: usize,
) -> Result<(), ReduceFault>
    requires { (1 ≤ workers) × (workers ≤ MOST_WORKERS) }
    ensures closed { OnOk result (IsClosed keeping group.old group.new) }
    ensures nothing { OnErr result (group.new ≡ group.old) }
{
    let refused = keeping.refused;
    let left = left_of(rt, alloc, &group.bytes, &group.homes, refused, workers)?;
    let found = found_left(alloc, &left.text, keeping.from)?;
    group.lost = is_lost(group.lost, left.refused);
    group.left = left.text.len();
    group.traces = found.traces;
    group.homes = found.homes;
    group.bytes = left.text;
    Ok(())
}

/// Whether a refused trace was left out before, or is among so many now.
fn is_lost(lost: bool, refused: u64) -> bool
    ensures { result ≡ (lost || not (refused == 0)) }
{
    lost || refused != 0
}

/// What is left of a stream, whose traces that many workers read at once. May wait.
///
/// # Errors
///
/// `Stream` exactly where the stream has a fault, whatever memory there is; `Memory` where a growth was
/// refused; and `Uneven` where the workers' book isn't that of the stream.
fn left_of<R: Threads + Wait + Sync>(
    rt: &R,
    alloc: Global,
    bytes: &[u8],
    homes: &[Home<'_>],
    keep_refused: bool,
    workers: usize,
) -> Result<Left, ReduceFault>
    requires { (1 ≤ workers) × (workers ≤ MOST_WORKERS) }
    ensures left { IfOk result (λ left.
        IsReductionOf keep_refused (map plain_home homes.now) (sources bytes.now) left.text.items) }
    ensures refused { IfOk result (λ left. left.refused ≡ refused_count (sources bytes.now)) }
    ensures stream { IfSome (stream_fault bytes.now) (λ fault.
        result ≡ Err (ReduceFault.Stream fault)) }
    ensures unwritten { result ≢ Err ReduceFault.Write }
{
    let checked = check(rt, alloc, bytes, workers, &NoGate)?;
    let left = left_in(alloc, &checked, homes, keep_refused);
    drop(checked);
    Ok(left?)
}

/// What is left of the traces that a book lists.
fn left_in(
    alloc: Global,
    checked: &Checked<'_>,
    homes: &[Home<'_>],
    keep_refused: bool,
) -> Result<Left, AllocError>
    requires { All IsTrace checked.now.book }
    ensures left { IfOk result (λ left. (in_order : List PlainSource)
        × IsPermutation checked.now.book in_order × AllPairs (λ a b. a.number < b.number) in_order
        × IsReductionOf keep_refused (map plain_home homes.now) in_order left.text.items) }
    ensures refused { IfOk result (λ left. left.refused ≡ refused_count checked.now.book) }
{
    let text = reduction(alloc, &checked.book, keep_refused, homes)?;
    let refused = checked.book.totals().refused;
    Ok(Left { text, refused })
}

/// Writes what all files of a group are reduced to, and flushes it. No write or flush that fails is tried again. May wait.
///
/// # Errors
///
/// `Write` exactly where a write or the flush failed: a first part of the text was written then, and
/// after any other fault nothing. The other faults are those of `left_of`.
pub fn write_group<O: Output, R: Threads + Wait + Sync>(
    rt: &R,
    alloc: Global,
    group: &Group<'_>,
    keeping: Keeping,
    output: &mut O,
    workers: usize,
) -> Result<Verdict, ReduceFault>
    requires sound { O.write_failed output.old ≡ false }
    requires workers { (1 ≤ workers) × (workers ≤ MOST_WORKERS) }

    ensures ok { IfOk result (λ verdict. (text : List ℕ)
        × ((all : Homed) → Stands keeping group.now all → IsReducedAll keeping all text verdict)
        × Appends (O.held output.old) (O.held output.new) text) }
    ensures flushed { OnOk result (O.is_flushed output.new ≡ true) }
    ensures write { (result ≡ Err ReduceFault.Write) ↔ (O.write_failed output.new ≡ true) }
    ensures part { result ≡ Err ReduceFault.Write → (text : List ℕ) × (verdict : Verdict)
        × ((all : Homed) → Stands keeping group.now all → IsReducedAll keeping all text verdict)
        × AppendsPart (O.held output.old) (O.held output.new) text }
    ensures nothing { IsErr result → result ≢ Err ReduceFault.Write → output.new ≡ output.old }
    ensures stream { IfSome (stream_fault group.now.bytes.items) (λ fault.
        result ≡ Err (ReduceFault.Stream fault)) }
{
    let left = left_of(
        rt,
        alloc,
        &group.bytes,
        &group.homes,
        keeping.refused,
        workers,
    )?;
    let verdict = verdict_of_lost(keeping.refused, group.lost, left.refused);
    match send(output, &left.text) {
        Ok(()) => Ok(verdict),
        Err(_) => Err(ReduceFault::Write),
    }
}

/// What it comes to that refused traces were left out before, and that so many are refused in the last group.
fn verdict_of_lost(keep_refused: bool, lost: bool, refused: u64) -> Verdict
    ensures { result ≡ verdict_of_lost keep_refused lost refused }
{
    if keep_refused || !lost && refused == 0 {
        Verdict::Clean
    } else {
        Verdict::Refused
    }
}
