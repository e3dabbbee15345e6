//! How often some traces acquire each class.
ghost use Rattle.std.specs.Prelude.{◌≤◌};

use crate::known::KnownLocks;
use crate::lines::behind_release;
use crate::numbered::Numbered;
use crate::told::{class_of, next_other};
use ld_class::Classes;
use ld_rules::{Listed, Outcome};
use ld_trace::{Event, Source, next_event};
use std::alloc::{AllocError, Global};
use std::thread;
use std::thread::Threads;

/// How often those of these traces that are read acquire each class, by the numbers of the classes. That many
/// threads read them at once.
///
/// # Errors
///
/// `AllocError` where memory was refused.
pub fn acquisitions<R: Threads + Sync>(
    rt: &R,
    alloc: Global,
    classes: &Classes<'_>,
    listed: &[Listed<'_>],
    threads: usize,
) -> Result<Vec<u64>, AllocError> {
    let parts = thread::map_chunks(
        rt,
        alloc,
        listed,
        part_len(listed.len(), threads),
        &|_, part| counts_of(alloc, classes, part),
    )?;
    let mut sums = vec![in alloc; 0; classes.len()]?;
    for part in parts {
        add(&mut sums, &part?);
    }
    Ok(sums)
}

/// How many of so many traces each of that many threads reads.
pub(crate) fn part_len(traces: usize, threads: usize) -> usize
    ensures { 1 ≤ result }
{
    if threads == 0 {
        return traces.max(1);
    }
    traces.div_ceil(threads).max(1)
}

/// How often these traces acquire each class.
fn counts_of(
    alloc: Global,
    classes: &Classes<'_>,
    listed: &[Listed<'_>],
) -> Result<Vec<u64>, AllocError> {
    let mut counts = vec![in alloc; 0; classes.len()]?;
    let mut locks = KnownLocks::new(alloc, classes)?;
    for trace in listed {
        if let Outcome::Read { .. } = trace.outcome {
            count(&mut counts, &mut locks, trace.source);
        }
    }
    Ok(counts)
}

/// Counts the acquisitions of a trace.
fn count<'a>(counts: &mut [u64], locks: &mut KnownLocks<'_, 'a>, source: Source<'a>) {
    let mut left = source.bytes;
    // Each line has a byte.
    for _ in 0..source.bytes.len() {
        if let Some(rest) = behind_release(left) {
            left = rest;
        } else if let Some(acquired) = locks.next_acquired(left) {
            raise(counts, acquired.class);
            left = acquired.rest;
        } else if let Some((event, rest)) = next_event(left) {
            count_event(counts, &mut locks.numbered, &event);
            left = rest;
        } else if let Some((event, rest)) = next_other(left) {
            if let Some(event) = event {
                count_event(counts, &mut locks.numbered, &event);
            }
            left = rest;
        } else {
            return;
        }
    }
}

/// Counts the acquisition that an event is, if it is one.
fn count_event(counts: &mut [u64], numbered: &mut Numbered<'_, '_>, event: &Event<'_>) {
    let class = match *event {
        Event::Acquire { lock, .. } | Event::Try { lock, .. } => class_of(lock, 0),
        Event::Nested { lock, sub, .. } => class_of(lock, sub),
        _ => return,
    };
    if let Some(number) = numbered.find(class) {
        raise(counts, number);
    }
}

/// One more acquisition of the class of this number.
fn raise(counts: &mut [u64], number: u32) {
    if let Some(count) = counts.get_mut(number as usize) {
        *count = count.saturating_add(1);
    }
}

/// Adds to each count that of the same place.
fn add(sums: &mut [u64], counts: &[u64]) {
    for (sum, count) in sums.iter_mut().zip(counts) {
        *sum = sum.saturating_add(*count);
    }
}
