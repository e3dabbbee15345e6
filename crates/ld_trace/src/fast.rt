//! Events in their plainest form, read by one pass over the line: those of a lock but `nested`, and those of a state.
ghost use Rattle.std.specs.Prelude.{◌≡◌, ◌++◌, ◌∷◌, Ok, None, Some, IfSome};
ghost use Rattle.std.specs.Bool.{OnTrue};
ghost use Rattle.ld_trace.specs.Events.{plain_event, plain_lock};
ghost use Rattle.ld_trace.specs.First.{IsFirstSaid};
ghost use Rattle.ld_trace.specs.Inner.Front.{AreEnds};
ghost use Rattle.ld_trace.specs.Inner.Plain.{IsLockLine, spelling_of_state};
ghost use Rattle.ld_trace.specs.Inner.Reading.{spelling_of_lock_verb, spelling_of_state_verb};

use crate::event::{Event, Lock, LockVerb, State, StateVerb};
use crate::front::{Ends, behind_end, next_name, next_word};

/// The event of the first line, and what follows that line, where the line is `VERB TASK LOCK` with
/// one blank between two of them and nothing else before its end, an LF or a CR and an LF. `None` says
/// nothing: whoever gets it reads the line by `next_line`, `text` and `read_event`.
// A program that calls it at several places would else have it as a function of its own, 8% more for each event.
#[inline(always)]
pub fn next_event(bytes: &[u8]) -> Option<(Event<'_>, &[u8])>
    ensures { IfSome result (λ cut.
        IsFirstSaid bytes.now (Ok (Some (plain_event cut.0))) cut.1.now) }
{
    let (verb, after) = next_verb(bytes)?;
    let ends = Ends::of(after);
    let (task, after) = next_word(after, ends)?;
    let after = after.strip_prefix(b" ")?;
    let (lock, rest) = next_lock(after, ends.behind(task.len() + 1))?;
    let event = match verb {
        LockVerb::Acquire => Event::Acquire { task, lock },
        LockVerb::Try => Event::Try { task, lock },
        LockVerb::Release => Event::Release { task, lock },
    };
    Some((event, rest))
}

/// The event of the first line, and what follows that line, where the line is `VERB TASK STATE` in the same form.
/// `None` says nothing, as that of [`next_event`].
#[inline(always)]
pub fn next_state_event(bytes: &[u8]) -> Option<(Event<'_>, &[u8])>
    ensures { IfSome result (λ cut.
        IsFirstSaid bytes.now (Ok (Some (plain_event cut.0))) cut.1.now) }
{
    let (verb, after) = next_state_verb(bytes)?;
    let (task, after) = next_word(after, Ends::of(after))?;
    let after = after.strip_prefix(b" ")?;
    let (state, after) = next_state(after)?;
    let rest = behind_end(after)?;
    let event = match verb {
        StateVerb::Enter => Event::Enter { task, state },
        StateVerb::Exit => Event::Exit { task, state },
        StateVerb::Enable => Event::Enable { task, state },
        StateVerb::Disable => Event::Disable { task, state },
    };
    Some((event, rest))
}

/// What follows the first line, where that has its end alone.
#[inline(always)]
pub fn behind_empty(bytes: &[u8]) -> Option<&[u8]>
    ensures { IfSome result (λ rest. IsFirstSaid bytes.now (Ok None) rest.now) }
{
    behind_end(bytes)
}

/// The verb at the front, and what follows the blank after it.
fn next_verb(bytes: &[u8]) -> Option<(LockVerb, &[u8])>
    ensures { IfSome result (λ cut. bytes.now ≡ spelling_of_lock_verb cut.0 ++ 32 ∷ cut.1.now) }
{
    if let Some(rest) = behind_eight(bytes, b"acquire ") {
        Some((LockVerb::Acquire, rest))
    } else if let Some(rest) = behind_eight(bytes, b"release ") {
        Some((LockVerb::Release, rest))
    } else {
        let rest = behind_four(bytes, b"try ")?;
        Some((LockVerb::Try, rest))
    }
}

/// What follows these eight bytes, where they stand at the front.
#[inline(always)]
fn behind_eight<'a>(bytes: &'a [u8], eight: &[u8; 8]) -> Option<&'a [u8]>
    ensures { IfSome result (λ rest. bytes.entry.now ≡ eight.now ++ rest.now) }
{
    let (first, rest) = bytes.split_first_chunk()?;
    if !same_eight(first, eight) {
        return None;
    }
    Some(rest)
}

/// Whether these eight bytes are the same: they are compared as one number.
#[inline(always)]
fn same_eight(a: &[u8; 8], b: &[u8; 8]) -> bool
    ensures { OnTrue result (a.now ≡ b.now) }
{
    u64::from_le_bytes(*a) == u64::from_le_bytes(*b)
}

/// What follows these four bytes, where they stand at the front.
#[inline(always)]
fn behind_four<'a>(bytes: &'a [u8], four: &[u8; 4]) -> Option<&'a [u8]>
    ensures { IfSome result (λ rest. bytes.entry.now ≡ four.now ++ rest.now) }
{
    let (first, rest) = bytes.split_first_chunk()?;
    if !same_four(first, four) {
        return None;
    }
    Some(rest)
}

/// Whether these four bytes are the same: they are compared as one number.
#[inline(always)]
fn same_four(a: &[u8; 4], b: &[u8; 4]) -> bool
    ensures { OnTrue result (a.now ≡ b.now) }
{
    u32::from_le_bytes(*a) == u32::from_le_bytes(*b)
}

/// The lock at the front, and what follows the end of its line, by the ends of names that were seen.
fn next_lock(bytes: &[u8], ends: Ends) -> Option<(Lock<'_>, &[u8])>
    requires { AreEnds bytes.now ends }
    ensures { IfSome result (λ cut. IsLockLine bytes.now (plain_lock cut.0) cut.1.now) }
{
    let (class, after) = next_name(bytes, ends)?;
    if let Some(rest) = behind_end(after) {
        let lock = Lock {
            class,
            instance: None,
        };
        return Some((lock, rest));
    }
    let after = after.strip_prefix(b"@")?;
    let (name, after) = next_name(after, ends.behind(class.len() + 1))?;
    let rest = behind_end(after)?;
    let lock = Lock {
        class,
        instance: Some(name),
    };
    Some((lock, rest))
}

/// The verb at the front that takes a state, and what follows the blank after it.
fn next_state_verb(bytes: &[u8]) -> Option<(StateVerb, &[u8])>
    ensures { IfSome result (λ cut. bytes.now ≡ spelling_of_state_verb cut.0 ++ 32 ∷ cut.1.now) }
{
    if let Some(rest) = behind_eight(bytes, b"disable ") {
        Some((StateVerb::Disable, rest))
    } else if let Some(after) = behind_four(bytes, b"enab") {
        let rest = after.strip_prefix(b"le ")?;
        Some((StateVerb::Enable, rest))
    } else if let Some(after) = behind_four(bytes, b"ente") {
        let rest = after.strip_prefix(b"r ")?;
        Some((StateVerb::Enter, rest))
    } else {
        let after = behind_four(bytes, b"exit")?;
        let rest = after.strip_prefix(b" ")?;
        Some((StateVerb::Exit, rest))
    }
}

/// The state at the front, and what follows it.
#[inline(always)]
fn next_state(bytes: &[u8]) -> Option<(State, &[u8])>
    ensures { IfSome result (λ cut. bytes.now ≡ spelling_of_state cut.0 ++ cut.1.now) }
{
    if let Some(rest) = behind_four(bytes, b"hard") {
        Some((State::Hard, rest))
    } else {
        let rest = behind_four(bytes, b"soft")?;
        Some((State::Soft, rest))
    }
}
