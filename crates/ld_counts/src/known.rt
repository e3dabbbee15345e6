//! Locks by how they are written: most are acquired again and again, and of these the lines aren't read any further.

use crate::hints::{HINTS, key_of, slot};
use crate::lines::{Words, next_acquisition, next_trylock, same_bytes};
use crate::numbered::Numbered;
use crate::told::class_of;
use ld_class::Classes;
use ld_trace::{Event, next_event};
use std::alloc::{AllocError, Global};

/// A lock that was acquired.
#[derive(Clone, Copy)]
struct Known<'a> {
    /// As it is written; empty for none, since no lock is written so.
    text: &'a [u8],
    /// The number of its class.
    class: u32,
    instance: Option<&'a [u8]>,
}

/// An acquisition.
#[derive(Clone, Copy)]
pub(crate) struct Acquired<'a> {
    pub task: &'a [u8],
    /// The number of the class.
    pub class: u32,
    pub instance: Option<&'a [u8]>,
    /// What follows the verb in the line, with its LF.
    pub text: &'a [u8],
    /// What follows the line.
    pub rest: &'a [u8],
}

/// Locks that were acquired, each at the place where one that is written so is looked for. The last one of a place
/// stands there.
#[derive(Drop)]
pub(crate) struct KnownLocks<'c, 'a> {
    known: Vec<Known<'a>>,
    pub numbered: Numbered<'c, 'a>,
}

impl<'c, 'a> KnownLocks<'c, 'a> {
    /// None of the locks of these classes.
    pub(crate) fn new(
        alloc: Global,
        classes: &'c Classes<'a>,
    ) -> Result<KnownLocks<'c, 'a>, AllocError> {
        let none = Known {
            text: &[],
            class: 0,
            instance: None,
        };
        let known = vec![in alloc; none; HINTS]?;
        let numbered = Numbered::new(alloc, classes)?;
        Ok(KnownLocks { known, numbered })
    }

    /// The acquisition of the first line, where that is one as most are. `None` says nothing.
    #[inline(always)]
    pub(crate) fn next_acquired(&mut self, bytes: &'a [u8]) -> Option<Acquired<'a>> {
        self.acquired(bytes, next_acquisition(bytes)?)
    }

    /// The same, where it was tried.
    #[inline(always)]
    pub(crate) fn next_trylocked(&mut self, bytes: &'a [u8]) -> Option<Acquired<'a>> {
        self.acquired(bytes, next_trylock(bytes)?)
    }

    /// The acquisition of the first line, which has these words.
    #[inline(always)]
    fn acquired(&mut self, bytes: &'a [u8], words: Words<'a>) -> Option<Acquired<'a>> {
        let place = slot(key_of(words.lock));
        let known = match self.known.get(place) {
            Some(known) if same_bytes(known.text, words.lock) => *known,
            _ => self.learn(bytes, place, words.lock)?,
        };
        Some(Acquired {
            task: words.task,
            class: known.class,
            instance: known.instance,
            text: words.text,
            rest: words.rest,
        })
    }

    /// The lock that the first line acquires, written so, which is noted at this place.
    #[inline(never)]
    fn learn(&mut self, bytes: &'a [u8], place: usize, text: &'a [u8]) -> Option<Known<'a>> {
        let Some((Event::Acquire { lock, .. } | Event::Try { lock, .. }, _)) = next_event(bytes)
        else {
            return None;
        };
        let class = self.numbered.find(class_of(lock, 0))?;
        let known = Known {
            text,
            class,
            instance: lock.instance,
        };
        if let Some(noted) = self.known.get_mut(place) {
            *noted = known;
        }
        Some(known)
    }
}
