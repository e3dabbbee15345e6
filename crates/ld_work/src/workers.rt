//! Reads traces by several workers at once.
ghost use Rattle.std.specs.Prelude.{◌≡◌, ◌≤◌, ◌<◌, ◌++◌, ℕ, None, Some, All, Err, IfOk, IfSome, IsSome, OnOk, false, length, map};
ghost use Rattle.std.specs.List.{Contains, last_or};
ghost use Rattle.ld_trace.specs.Sources.{AreNumbered, Fits, PlainSource, plain};
ghost use Rattle.ld_tickets.specs.Draw.{IsSeatOf};
ghost use Rattle.ld_work.specs.Inner.Uneven.{IsUneven};
ghost use Rattle.ld_work.specs.Work.{ListsEachOnce};

use crate::desk::{Desk, Scope};
use crate::even::uneven;
use crate::feeder::{Feeder, MOST_FEEDERS};
use crate::gate::Gate;
use crate::told::{Portion, Told};
use ld_book::Book;
use ld_history::{Opened, Room};
use ld_tickets::{DrawSeat, Tickets};
use ld_trace::{MOST_TRACES, Source};
use std::alloc::{AllocError, Global};
use std::marker::Brand;
use std::sync::Wait;
use std::sync::ledger::{Blank, Ledger};
use std::thread;
use std::thread::Threads;
use thiserror::Error;

/// Why the work gave no book.
#[derive(Clone, Copy, Debug, PartialEq, Eq, Error)]
pub enum WorkFault {
    /// A growth of memory was refused.
    #[error("out of memory")]
    Memory,
    /// The source of this number wasn't listed: the least such number.
    #[error("uneven at {0}")]
    Uneven(u64),
}

impl From<AllocError> for WorkFault {
    ghost use Rattle.std.specs.Prelude.{◌≡◌};
    ghost use Rattle.ld_work.specs.declared.workers.WorkFault.TheVariants.{Memory};

    ghost from_gives = { λ _ fault. fault ≡ Memory };

    fn from(_refusal: AllocError) -> WorkFault {
        WorkFault::Memory
    }
}

/// What a worker begins with.
#[derive(Drop)]
struct Job<T: Ledger, E: Ledger> {
    worker: usize,
    portion: Portion,
    feeder: Feeder<T, E>,
    seat: DrawSeat,
}

/// What a worker leaves.
#[derive(Drop)]
pub(crate) struct Done<T: Ledger, E: Ledger> {
    pub(crate) feeder: Feeder<T, E>,
    /// A growth of memory was refused: the worker drew no more, and what its batch had isn't in the book.
    pub(crate) refused: bool,
}

/// The book of these sources, read by that many workers at once. Each worker draws the number of its
/// next trace, the least that is left, and passes the gate before it reads that trace. So one long
/// trace holds up no other. It hands on 8 traces together. If no thread can be started, workers do their
/// work one after another. May wait.
///
/// # Errors
///
/// `Memory` if a growth of memory was refused, which comes first, and `Uneven` if the book doesn't list just
/// the sources.
pub fn work<'a, G: Gate + Sync, R: Threads + Wait + Sync>(
    rt: &R,
    alloc: Global,
    sources: &[Source<'a>],
    workers: usize,
    gate: &G,
) -> Result<Book<'a>, WorkFault>
    requires workers { (1 ≤ workers) × (workers ≤ MOST_FEEDERS) }
    requires few { length sources.now ≤ MOST_TRACES }
    requires numbered { AreNumbered (map plain sources.now) }
    requires fit { All (λ source. Fits (plain source)) sources.now }
    ensures { IfOk result (λ book. ListsEachOnce (map plain sources.now) book) }
{
    work_by(rt, alloc, sources, workers, Portion::Traces, gate)
}

/// As `work`. A worker hands on as much as the portion says.
///
/// # Errors
///
/// Those of `work`.
pub fn work_by<'a, G: Gate + Sync, R: Threads + Wait + Sync>(
    rt: &R,
    alloc: Global,
    sources: &[Source<'a>],
    workers: usize,
    portion: Portion,
    gate: &G,
) -> Result<Book<'a>, WorkFault>
    requires workers { (1 ≤ workers) × (workers ≤ MOST_FEEDERS) }
    requires few { length sources.now ≤ MOST_TRACES }
    requires numbered { AreNumbered (map plain sources.now) }
    requires fit { All (λ source. Fits (plain source)) sources.now }
    ensures { IfOk result (λ book. ListsEachOnce (map plain sources.now) book) }
{
    let opened = Opened::new(alloc)?;
    let traces = Blank::new(workers as u64);
    let events = Blank::new(workers as u64);
    work_at::<Brand, Brand, Brand, Brand, G, R>(
        rt, alloc, traces, events, opened, sources, workers, portion, gate,
    )
}

/// As `work`, with the ledgers and the history of the desk, and by a desk that may list just the sources.
fn work_at<
    'a,
    T: Ledger + Send + Sync,
    E: Ledger + Send + Sync,
    S: Scope + Send + Sync,
    H: Room + Send + Sync,
    G: Gate + Sync,
    R: Threads + Wait + Sync,
>(
    rt: &R,
    alloc: Global,
    traces: Blank,
    events: Blank,
    opened: Opened,
    sources: &[Source<'a>],
    workers: usize,
    portion: Portion,
    gate: &G,
) -> Result<Book<'a>, WorkFault>
    requires workers { (1 ≤ workers) × (workers ≤ MOST_FEEDERS) }
    requires traces { (traces.name ≡ T.name) × (traces.parts ≡ T.parts)
        × (traces.parts ≡ workers) }
    requires events { (events.name ≡ E.name) × (events.parts ≡ E.parts)
        × (events.parts ≡ workers) }
    requires few { length sources.now ≤ MOST_TRACES }
    requires numbered { AreNumbered (map plain sources.now) }
    requires fit { All (λ source. Fits (plain source)) sources.now }
    requires history { H.history ≡ Some opened }
    requires scope { All (λ source. S.may_list (plain source)) sources.now }
    requires only { (s : PlainSource) → S.may_list s → Contains (map plain sources.now) s }
    ensures { IfOk result (λ book. ListsEachOnce (map plain sources.now) book) }
{
    let (desk, feeders) = Desk::<T, E, S, H>::with_history(alloc, traces, events, workers, opened)?;
    let fed = feed(rt, alloc, &desk, sources, gate, portion, feeders);
    let book = gathered(desk, fed)?;
    match settled(alloc, sources, &book) {
        Ok(()) => Ok(book),
        Err(fault) => {
            drop(book);
            Err(fault)
        }
    }
}

/// Lets each feeder add the traces of a worker to the desk's book, and gives the feeders back.
///
/// # Errors
///
/// `AllocError` where memory was refused, to a worker or for the tickets or the feeders.
fn feed<
    'a,
    T: Ledger + Send + Sync,
    E: Ledger + Send + Sync,
    S: Scope + Send + Sync,
    H: Room + Send + Sync,
    G: Gate + Sync,
    R: Threads + Wait + Sync,
>(
    rt: &R,
    alloc: Global,
    desk: &Desk<'a, T, E, S, H>,
    sources: &[Source<'a>],
    gate: &G,
    portion: Portion,
    feeders: Vec<Feeder<T, E>>,
) -> Result<Vec<Feeder<T, E>>, AllocError>
    requires some { (1 ≤ length feeders.items) × (length feeders.items ≤ MOST_FEEDERS) }
    requires few { length sources.now ≤ MOST_TRACES }
    requires numbered { AreNumbered (map plain sources.now) }
    requires fit { All (λ source. Fits (plain source)) sources.now }
    requires scope { All (λ source. S.may_list (plain source)) sources.now }
    requires history { IsSome H.history }
    ensures { IfOk result (λ fed. length fed.items ≡ length feeders.items) }
{
    let (tickets, seats) = Tickets::new(alloc, sources.len() as u64, feeders.len())?;
    let jobs = jobs_of(alloc, portion, feeders, seats)?;
    let done = run(rt, alloc, desk, &tickets, sources, gate, jobs)?;
    feeders_of(alloc, done)
}

/// The book of a desk, all of whose feeders were given back, unless memory was refused.
pub(crate) fn gathered<'a, T: Ledger, E: Ledger, S: Scope, H: Room>(
    desk: Desk<'a, T, E, S, H>,
    fed: Result<Vec<Feeder<T, E>>, AllocError>,
) -> Result<Book<'a>, AllocError>
    requires { IfOk fed (λ feeders. length feeders.items ≡ desk) }
    ensures { IfOk result (All S.may_list) }
{
    let feeders = match fed {
        Ok(feeders) => feeders,
        Err(refusal) => {
            drop(desk);
            return Err(refusal);
        }
    };
    match desk.gather(feeders) {
        Ok(all) => Ok(all.book),
        Err(_) => unreachable!(),
    }
}

/// A job for each feeder, with a seat.
fn jobs_of<T: Ledger, E: Ledger>(
    alloc: Global,
    portion: Portion,
    feeders: Vec<Feeder<T, E>>,
    seats: Vec<DrawSeat>,
) -> Result<Vec<Job<T, E>>, AllocError>
    requires { length seats.items ≡ length feeders.items }
    ensures count { IfOk result (λ jobs. length jobs.items ≡ length feeders.items) }
    ensures seats { IfOk result (λ jobs. map (λ job. job.seat) jobs.items ≡ seats.items) }
{
    let mut jobs = Vec::new(alloc);
    for (feeder, seat) in feeders.into_iter().zip(seats) {
        let worker = jobs.len();
        jobs.push(Job {
            worker,
            portion,
            feeder,
            seat,
        })?;
    }
    Ok(jobs)
}

/// Does all jobs, each in a thread of its own where one can be started.
fn run<
    'a,
    T: Ledger + Send + Sync,
    E: Ledger + Send + Sync,
    S: Scope + Send + Sync,
    H: Room + Send + Sync,
    G: Gate + Sync,
    R: Threads + Wait + Sync,
>(
    rt: &R,
    alloc: Global,
    desk: &Desk<'a, T, E, S, H>,
    tickets: &Tickets,
    sources: &[Source<'a>],
    gate: &G,
    jobs: Vec<Job<T, E>>,
) -> Result<Vec<Done<T, E>>, AllocError>
    requires numbers { tickets.now.n ≡ length sources.now }
    requires seats { All (λ job. IsSeatOf tickets.now job.seat) jobs.items }
    requires numbered { AreNumbered (map plain sources.now) }
    requires fit { All (λ source. Fits (plain source)) sources.now }
    requires scope { All (λ source. S.may_list (plain source)) sources.now }
    requires history { IsSome H.history }
    ensures { IfOk result (λ done. length done.items ≡ length jobs.items) }
{
    thread::map_vec(
        rt,
        jobs,
        &|job: Job<T, E>| { run_one(rt, alloc, desk, tickets, sources, gate, job) },
    )
}

/// Does one job: draws the numbers of traces, reads these and hands them on, until none is left or
/// memory is refused.
fn run_one<'a, T: Ledger, E: Ledger, S: Scope, H: Room, G: Gate, R: Wait>(
    rt: &R,
    alloc: Global,
    desk: &Desk<'a, T, E, S, H>,
    tickets: &Tickets,
    sources: &[Source<'a>],
    gate: &G,
    job: Job<T, E>,
) -> Done<T, E>
    requires numbers { tickets.now.n ≡ length sources.now }
    requires seat { IsSeatOf tickets.now job.seat }
    requires numbered { AreNumbered (map plain sources.now) }
    requires fit { All (λ source. Fits (plain source)) sources.now }
    requires scope { All (λ source. S.may_list (plain source)) sources.now }
    requires history { IsSome H.history }
{
    let Job {
        worker,
        portion,
        mut feeder,
        mut seat,
    } = job;
    let mut told = Told::<S, H>::new(alloc, desk.look(rt).front(), portion);
    let mut refused = false;
    while let Some(number) = tickets.draw(&mut seat) {
        gate.pass(worker as u64, number);
        let source = sources[number as usize];
        refused = read(rt, desk, source, &mut told, &mut feeder).is_err();
        if refused {
            break;
        }
    }
    if !refused && told.has_more() {
        refused = told.hand_on(rt, desk, &mut feeder).is_err();
    }
    drop(told);
    Done { feeder, refused }
}

/// Reads a trace, and hands on what was read if that is due.
pub(crate) fn read<'a, T: Ledger, E: Ledger, S: Scope, H: Room, R: Wait>(
    rt: &R,
    desk: &Desk<'a, T, E, S, H>,
    source: Source<'a>,
    told: &mut Told<'a, S, H>,
    feeder: &mut Feeder<T, E>,
) -> Result<(), AllocError>
    requires fits { Fits (plain source) }
    requires scope { S.may_list (plain source) }
    requires above { IfSome (last_or None (told.old.behind ++ told.old.sources))
        (λ last. last.number < source.number) }
    ensures { OnOk result (IfSome (last_or None (told.new.behind ++ told.new.sources))
        (λ last. last.number ≡ source.entry.number)) }
{
    // Read before the lock is taken, so that the workers read at the same time.
    told.push(source)?;
    if told.is_due() {
        told.hand_on(rt, desk, feeder)
    } else {
        Ok(())
    }
}

/// The feeders of all workers.
///
/// # Errors
///
/// `AllocError` where one of them was refused memory, or memory for the feeders was.
pub(crate) fn feeders_of<T: Ledger, E: Ledger>(
    alloc: Global,
    done: Vec<Done<T, E>>,
) -> Result<Vec<Feeder<T, E>>, AllocError>
    ensures count { IfOk result (λ feeders. length feeders.items ≡ length done.items) }
    ensures none { OnOk result (All (λ d. d.refused ≡ false) done.items) }
{
    let mut feeders = Vec::new(alloc);
    let mut any_refused = false;
    for Done { feeder, refused } in done {
        feeders.push(feeder)?;
        any_refused |= refused;
    }
    if any_refused {
        Err(AllocError)
    } else {
        Ok(feeders)
    }
}

/// Answers Ok where the book, which lists nothing but sources, lists each exactly once.
///
/// # Errors
///
/// `Memory` where memory was refused, and else `Uneven` with the number that tells it.
pub(crate) fn settled<'a>(
    alloc: Global,
    sources: &[Source<'a>],
    book: &Book<'a>,
) -> Result<(), WorkFault>
    requires numbered { AreNumbered (map plain sources.now) }
    requires among { All (Contains (map plain sources.now)) book.now }
    ensures even { OnOk result (ListsEachOnce (map plain sources.now) book.now) }
    ensures uneven { (number : ℕ) → result ≡ Err (WorkFault.Uneven number)
        → IsUneven (map plain sources.now) book.now number }
{
    match uneven(alloc, sources, book)? {
        None => Ok(()),
        Some(number) => Err(WorkFault::Uneven(number)),
    }
}
