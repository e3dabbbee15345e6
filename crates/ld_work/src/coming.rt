//! Reads traces by several workers at once while these come.
ghost use Rattle.std.specs.Prelude.{◌≡◌, ◌≤◌, ◌<◌, ◌++◌, None, Some, All, IfNone, IfOk, IfSome, IsSome, IsTrue, OnOk, length, map};
ghost use Rattle.std.specs.List.{Contains, last_or};
ghost use Rattle.ld_trace.specs.Sources.{AreNumbered, plain};
ghost use Rattle.ld_batch.specs.Batch.{sources_of};
ghost use Rattle.ld_work.specs.Work.{ListsEachOnce};

use crate::cuts::Cuts;
use crate::desk::Desk;
use crate::feeder::{Feeder, MOST_FEEDERS};
use crate::told::{Portion, Told};
use crate::workers::{Done, WorkFault, feeders_of, gathered, read, settled};
use ld_book::Book;
use ld_history::{Opened, Room};
use ld_rules::Listed;
use ld_trace::Source;
use std::alloc::{AllocError, Global};
use std::marker::Brand;
use std::sync::Wait;
use std::sync::ledger::{Blank, Ledger};
use std::thread;
use std::thread::Threads;

/// A book of traces that come while that many workers read them. Each worker takes the next that have come, and waits
/// for them. It hands on 64 KiB together. If no thread can be started, workers do their work one after another. May
/// wait.
///
/// # Errors
///
/// `AllocError` if a growth of memory was refused.
pub fn work_on<'a, R: Threads + Wait + Sync>(
    rt: &R,
    alloc: Global,
    cuts: &Cuts<'a>,
    workers: usize,
) -> Result<Book<'a>, AllocError>
    requires { (1 ≤ workers) × (workers ≤ MOST_FEEDERS) }
{
    let opened = Opened::new(alloc)?;
    let traces = Blank::new(workers as u64);
    let events = Blank::new(workers as u64);
    work_on_at::<Brand, Brand, Brand, R>(rt, alloc, traces, events, opened, cuts, workers)
}

/// As `work_on`, with the ledgers and the history of the desk.
fn work_on_at<
    'a,
    T: Ledger + Send + Sync,
    E: Ledger + Send + Sync,
    H: Room + Send + Sync,
    R: Threads + Wait + Sync,
>(
    rt: &R,
    alloc: Global,
    traces: Blank,
    events: Blank,
    opened: Opened,
    cuts: &Cuts<'a>,
    workers: usize,
) -> Result<Book<'a>, AllocError>
    requires workers { (1 ≤ workers) × (workers ≤ MOST_FEEDERS) }
    requires traces { (traces.name ≡ T.name) × (traces.parts ≡ T.parts)
        × (traces.parts ≡ workers) }
    requires events { (events.name ≡ E.name) × (events.parts ≡ E.parts)
        × (events.parts ≡ workers) }
    requires history { H.history ≡ Some opened }
{
    let (desk, feeders) = Desk::<T, E, Brand, H>::with_history(
        alloc, traces, events, workers, opened,
    )?;
    let fed = feed_on(rt, alloc, &desk, cuts, feeders);
    gathered(desk, fed)
}

/// Lets each feeder add the traces of a worker to the desk's book, and gives the feeders back.
fn feed_on<
    'a,
    T: Ledger + Send + Sync,
    E: Ledger + Send + Sync,
    H: Room + Send + Sync,
    R: Threads + Wait + Sync,
>(
    rt: &R,
    alloc: Global,
    desk: &Desk<'a, T, E, Brand, H>,
    cuts: &Cuts<'a>,
    feeders: Vec<Feeder<T, E>>,
) -> Result<Vec<Feeder<T, E>>, AllocError>
    requires { IsSome H.history }
    ensures { IfOk result (λ fed. length fed.items ≡ length feeders.items) }
{
    let done = thread::map_vec(
        rt,
        feeders,
        &|feeder: Feeder<T, E>| { run_on(rt, alloc, desk, cuts, feeder) },
    )?;
    feeders_of(alloc, done)
}

/// Takes traces, reads these and hands them on, until no more come or memory is refused.
fn run_on<'a, T: Ledger, E: Ledger, H: Room, R: Wait>(
    rt: &R,
    alloc: Global,
    desk: &Desk<'a, T, E, Brand, H>,
    cuts: &Cuts<'a>,
    mut feeder: Feeder<T, E>,
) -> Done<T, E>
    requires { IsSome H.history }
{
    let mut told = Told::<Brand, H>::new(alloc, desk.look(rt).front(), Portion::Bytes);
    let mut refused = false;
    let mut from = 0;
    for _ in rt.forever() {
        let Some(cut) = cuts.next(rt) else {
            break;
        };
        match read_cut(rt, desk, &cut, from, &mut told, &mut feeder) {
            Ok(next) => from = next,
            Err(AllocError) => {
                refused = true;
                break;
            }
        }
    }
    if !refused && told.has_more() {
        refused = told.hand_on(rt, desk, &mut feeder).is_err();
    }
    drop(told);
    Done { feeder, refused }
}

/// Reads some traces, whose numbers rise from this one on, and answers from which one they go on. It leaves out others,
/// so that the book lacks them.
fn read_cut<'a, T: Ledger, E: Ledger, H: Room, R: Wait>(
    rt: &R,
    desk: &Desk<'a, T, E, Brand, H>,
    cut: &[Source<'a>],
    from: u64,
    told: &mut Told<'a, Brand, H>,
    feeder: &mut Feeder<T, E>,
) -> Result<u64, AllocError>
    requires above { IfSome (last_or None (told.old.behind ++ told.old.sources))
        (λ last. last.number < from) }
    ensures above { IfOk result (λ next. IfSome (last_or None (told.new.behind ++ told.new.sources))
        (λ last. last.number < next)) }
{
    let mut next = from;
    for source in cut {
        next = read_next(rt, desk, *source, next, told, feeder)?;
    }
    Ok(next)
}

/// The same of one trace.
fn read_next<'a, T: Ledger, E: Ledger, H: Room, R: Wait>(
    rt: &R,
    desk: &Desk<'a, T, E, Brand, H>,
    source: Source<'a>,
    from: u64,
    told: &mut Told<'a, Brand, H>,
    feeder: &mut Feeder<T, E>,
) -> Result<u64, AllocError>
    requires above { IfSome (last_or None (told.old.behind ++ told.old.sources))
        (λ last. last.number < from) }
    ensures above { IfOk result (λ next. IfSome (last_or None (told.new.behind ++ told.new.sources))
        (λ last. last.number < next)) }
{
    if source.number < from {
        return Ok(from);
    }
    if !source.fits() {
        return Ok(from);
    }
    let number = source.number;
    read(rt, desk, source, told, feeder)?;
    Ok(number + 1)
}

/// Answers Ok if the book lists each source exactly once, and nothing else.
///
/// # Errors
///
/// `Memory` if memory was refused, and else `Uneven`.
pub fn compared<'a>(alloc: Global, sources: &[Source<'a>], book: &Book<'a>) -> Result<(), WorkFault>
    requires { AreNumbered (map plain sources.now) }
    ensures { OnOk result (ListsEachOnce (map plain sources.now) book.now) }
{
    match first_other(sources, book.listed()) {
        Some(number) => Err(WorkFault::Uneven(number)),
        None => settled(alloc, sources, book),
    }
}

/// The number of the first trace that is none of the sources.
fn first_other(sources: &[Source<'_>], listed: &[Listed<'_>]) -> Option<u64>
    ensures { IfNone result (All (Contains (map plain sources.now)) (sources_of listed.now)) }
{
    for trace in listed {
        if !stands_in(sources, &trace.source) {
            return Some(trace.source.number);
        }
    }
    None
}

/// Whether this is the source of its number.
fn stands_in(sources: &[Source<'_>], trace: &Source<'_>) -> bool
    ensures { IsTrue result → Contains (map plain sources.now) (plain trace.now) }
{
    match sources.get(trace.number as usize) {
        Some(source) => is_same(source, trace),
        None => false,
    }
}

fn is_same(source: &Source<'_>, trace: &Source<'_>) -> bool
    ensures { IsTrue result → plain source.now ≡ plain trace.now }
{
    source.number == trace.number
        && source.first_line == trace.first_line
        && source.name == trace.name
        && source.bytes == trace.bytes
}
