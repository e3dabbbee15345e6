//! Names of tasks.

use std::alloc::{AllocError, Global};
use std::collections::HashMap;

/// The idle task of each processor.
const IDLE: &[u8] = b"<idle>";

/// A task whose name the kernel hasn't kept.
const UNKNOWN: &[u8] = b"<...>";

/// The names of tasks, by their numbers.
#[derive(Drop)]
pub struct Names<'a> {
    named: HashMap<i32, &'a [u8]>,
}

impl<'a> Names<'a> {
    /// The names that the text of `saved_cmdlines` has, by lines `NUMBER NAME`. Other lines say nothing.
    ///
    /// # Errors
    ///
    /// A growth of memory was refused.
    pub fn of(alloc: Global, text: &'a [u8]) -> Result<Names<'a>, AllocError> {
        let mut named = HashMap::new(alloc);
        let mut rest = text;
        // There are no more lines than bytes.
        for _ in 0..text.len() {
            let Some((line, after)) = cut(rest, b'\n') else {
                break;
            };
            if let Some((task, name)) = named_by(line) {
                named.insert(task, name)?;
            }
            rest = after;
        }
        Ok(Names { named })
    }

    /// The name of the task with this number.
    pub fn name(&self, task: i32) -> &'a [u8] {
        if task == 0 {
            return IDLE;
        }
        match self.named.get(&task) {
            Some(name) => *name,
            None => UNKNOWN,
        }
    }
}

/// What stands before the first of these bytes, and behind it.
pub(crate) fn cut(text: &[u8], at: u8) -> Option<(&[u8], &[u8])> {
    let place = text.iter().position(|byte| *byte == at)?;
    let (_, rest) = text.get(place..)?.split_first()?;
    Some((text.get(..place)?, rest))
}

/// The number and the name that a line has.
fn named_by(line: &[u8]) -> Option<(i32, &[u8])> {
    let (number, name) = cut(line, b' ')?;
    Some((str::from_utf8(number).ok()?.parse().ok()?, name))
}
