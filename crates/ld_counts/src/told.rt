//! Events of a trace that aren't in their plainest form.

use ld_class::ClassName;
use ld_trace::{Event, Lock, next_line, next_state_event, read_event, text};

/// The event of the first line, if it names one, and what follows the line; `None` where there is no byte. Whoever
/// asks has asked `next_event`.
pub(crate) fn next_other(bytes: &[u8]) -> Option<(Option<Event<'_>>, &[u8])> {
    if let Some((event, rest)) = next_state_event(bytes) {
        return Some((Some(event), rest));
    }
    let (line, rest) = next_line(bytes)?;
    Some((read_event(text(line)).ok().flatten(), rest))
}

/// The class of a lock that is acquired as this subclass of it; 0 where none is named.
pub(crate) fn class_of(lock: Lock<'_>, sub: u8) -> ClassName<'_> {
    ClassName {
        name: lock.class,
        sub,
    }
}
