//! What a task holds as it is told of: a lock that readers wait for is one lock, whose writer holds two classes.

use ld_overview::{ClassName, has_readers, lock_of_readers};
use ld_replay::{Before, Hold};
use ld_trace::Lock;
use std::alloc::{AllocError, Global};

/// A lock that a task holds.
#[derive(Clone, Copy)]
pub struct Held<'a> {
    /// The lock: `L` for `L!read`.
    pub lock: Lock<'a>,
    /// The subclass that it was acquired as, from 1 to 7; 0 where none was named.
    pub sub: u8,
    /// Whether its readers wait for the task.
    pub is_written: bool,
    /// The number, in the stream, of the line of its acquisition.
    pub line: u64,
}

impl<'a> Held<'a> {
    /// The lock of this acquisition.
    pub fn of(hold: &Hold<'a>) -> Held<'a> {
        let line = hold.line;
        match lock_of_readers(class_of(hold)) {
            Some(class) => Held {
                lock: Lock {
                    class,
                    instance: hold.lock.instance,
                },
                sub: 0,
                is_written: true,
                line,
            },
            None => Held {
                lock: hold.lock,
                sub: hold.sub,
                is_written: false,
                line,
            },
        }
    }
}

/// The locks that are held in a frame, in order of acquisition. What a writer holds, `L` and then `L!read`, is one
/// lock, which it acquired where it acquired `L`.
pub fn holds_in<'a>(
    alloc: Global,
    holds: &[Hold<'a>],
    frame: Option<u64>,
) -> Result<Vec<Held<'a>>, AllocError> {
    let mut all: Vec<Held<'a>> = Vec::new(alloc);
    let mut last = None;
    for hold in holds {
        if hold.frame == frame {
            let mut held = Held::of(hold);
            if is_written(last, hold) {
                if let Some(entered) = all.pop() {
                    held.line = entered.line;
                }
            }
            all.push(held)?;
            last = Some(*hold);
        }
    }
    Ok(all)
}

/// The frame that the task of a line is in there.
pub fn innermost(before: &Before<'_>) -> Option<u64> {
    match before.task.handlers().last() {
        Some(handler) => Some(handler.place),
        None => None,
    }
}

/// Whether these are what a writer of one lock holds.
fn is_written(last: Option<Hold<'_>>, hold: &Hold<'_>) -> bool {
    match last {
        Some(last) => {
            has_readers(class_of(&last), class_of(hold)) && last.lock.instance == hold.lock.instance
        }
        None => false,
    }
}

/// The class that a lock was acquired as.
pub fn class_of<'a>(hold: &Hold<'a>) -> ClassName<'a> {
    ClassName {
        name: hold.lock.class,
        sub: hold.sub,
    }
}
