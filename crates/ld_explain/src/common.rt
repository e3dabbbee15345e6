//! What the first occurrences of several dependencies have in common.

use crate::readers::{Held, holds_in, innermost};
use crate::sightings::Sightings;
use crate::violations::Step;
use ld_overview::{Book, ClassName};
use ld_replay::task_of;
use ld_rows::{Common, CommonLock};
use std::alloc::{AllocError, Global};

/// What the first occurrences of these dependencies have in common: their task, and the locks that are held at each and
/// exclude their tasks. `None` for nothing.
pub fn common_of<'a>(
    alloc: Global,
    book: &Book<'a>,
    sightings: &Sightings<'a>,
    steps: &[Step<'_>],
) -> Result<Option<Common<'a>>, AllocError> {
    let is_one_task = are_by_one_task(sightings, steps);
    let mut locks = Vec::new(alloc);
    for held in &common_locks(alloc, book, sightings, steps)? {
        locks.push(CommonLock {
            name: held.lock.class,
            instance: held.lock.instance,
            is_written: held.is_written,
        })?;
    }
    if is_one_task || !locks.is_empty() {
        Ok(Some(Common { is_one_task, locks }))
    } else {
        Ok(None)
    }
}

/// Whether all of these dependencies were first seen in one trace, by one task.
fn are_by_one_task(sightings: &Sightings<'_>, steps: &[Step<'_>]) -> bool {
    let Some(first) = steps.first() else {
        return false;
    };
    let Some(task) = task_at(sightings, first) else {
        return false;
    };
    steps.iter().all(|step| step.first.number == first.first.number
        && task_at(sightings, step) == Some(task))
}

/// The task of a dependency's first occurrence.
fn task_at<'a>(sightings: &Sightings<'a>, step: &Step<'_>) -> Option<&'a [u8]> {
    match sightings.at(step.first) {
        Some(before) => Some(task_of(&before.event)),
        None => None,
    }
}

/// The locks that are held at the first occurrence of each of these dependencies, in the same frame, each once, and that
/// let one of their tasks in at a time. A lock is written if it is so at one of them, as then the tasks exclude each
/// other. Different traces may name other locks by the same instance, so there only locks without one are the same.
fn common_locks<'a>(
    alloc: Global,
    book: &Book<'a>,
    sightings: &Sightings<'a>,
    steps: &[Step<'_>],
) -> Result<Vec<Held<'a>>, AllocError> {
    let mut excluding = Vec::new(alloc);
    for held in &held_at_each(alloc, sightings, steps)? {
        if is_held_by_one(alloc, book, held)? {
            excluding.push(*held)?;
        }
    }
    Ok(excluding)
}

/// Whether a common lock is held by one of its tasks at a time: one of them writes it, or no recursive reader waits for
/// locks of its class in any trace. If all of them only read it, it lets them in together.
fn is_held_by_one(alloc: Global, book: &Book<'_>, held: &Held<'_>) -> Result<bool, AllocError> {
    if held.is_written {
        return Ok(true);
    }
    let mut name = held.lock.class.to_vec(alloc)?;
    name.extend_from_slice(b"!read")?;
    let for_readers = ClassName {
        name: &name,
        sub: 0,
    };
    Ok(book.usage(for_readers).is_none())
}

/// The locks that are held at the first occurrence of each of these dependencies, whether they exclude each other or not.
fn held_at_each<'a>(
    alloc: Global,
    sightings: &Sightings<'a>,
    steps: &[Step<'_>],
) -> Result<Vec<Held<'a>>, AllocError> {
    let Some((first, others)) = steps.split_first() else {
        return Ok(Vec::new(alloc));
    };
    let mut common = locks_at(alloc, sightings, first)?;
    for step in others {
        if common.is_empty() {
            break;
        }
        let locks = locks_at(alloc, sightings, step)?;
        let are_of_one_trace = step.first.number == first.first.number;
        common = in_both(alloc, &common, &locks, are_of_one_trace)?;
    }
    Ok(common)
}

/// The locks that are held at a dependency's first occurrence, in the same frame.
fn locks_at<'a>(
    alloc: Global,
    sightings: &Sightings<'a>,
    step: &Step<'_>,
) -> Result<Vec<Held<'a>>, AllocError> {
    match sightings.at(step.first) {
        Some(before) => holds_in(alloc, before.task.holds(), innermost(before)),
        None => Ok(Vec::new(alloc)),
    }
}

/// Those of the first ones that are among the others too, each once.
fn in_both<'a>(
    alloc: Global,
    ones: &[Held<'a>],
    others: &[Held<'a>],
    are_of_one_trace: bool,
) -> Result<Vec<Held<'a>>, AllocError> {
    let mut both: Vec<Held<'a>> = Vec::new(alloc);
    for one in ones {
        let is_named_alike = are_of_one_trace || one.lock.instance.is_none();
        if is_named_alike && !both.iter().any(|known| known.lock == one.lock) {
            if let Some(other) = others.iter().find(|other| other.lock == one.lock) {
                let is_written = one.is_written || other.is_written;
                both.push(Held { is_written, ..*one })?;
            }
        }
    }
    Ok(both)
}
