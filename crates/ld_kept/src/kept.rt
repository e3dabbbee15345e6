//! Which acquisitions a stream has, and how each stands there.
ghost use Rattle.std.specs.Prelude.{◌≡◌};
ghost use Rattle.ld_kept.specs.Kept.{left_out_of, locks_of, may_be_nested, needs_readers_of, stands_apart, sub_of, taking_of};

use ld_kernel::{Acquire, Mode};

/// The highest subclass that a line `nested` has.
pub const MOST_SUBCLASS: u8 = 7;

/// Why a stream leaves out an acquisition.
#[derive(Clone, Copy, Debug, PartialEq, Eq)]
pub enum LeftOut {
    /// Lockdep doesn't check it.
    Unchecked,
    /// It is by a reader, and readers aren't wanted.
    Readers,
}

/// How a task acquires a lock.
#[derive(Clone, Copy, Debug, PartialEq, Eq)]
pub enum Taking {
    /// It may wait for it.
    Waiting,
    /// It doesn't wait for it.
    Trying,
    /// It may wait for it as a recursive reader, whom waiting writers don't hold up.
    Reading,
}

/// Why a stream leaves out an acquisition; `None` if it has it.
pub fn left_out(acquire: &Acquire<'_>, without_readers: bool) -> Option<LeftOut>
    ensures { result ≡ left_out_of acquire.now.is_checked acquire.now.mode without_readers }
{
    if !acquire.is_checked {
        return Some(LeftOut::Unchecked);
    }
    match acquire.mode {
        Mode::Writer => None,
        Mode::Reader | Mode::Recursive => if without_readers {
            Some(LeftOut::Readers)
        } else {
            None
        },
    }
}

/// How a task acquires a lock. `is_ordered` is true if it holds the lock that orders many of the class, and one of
/// the class.
pub fn taking_of(acquire: &Acquire<'_>, is_ordered: bool) -> Taking
    ensures { result ≡ taking_of acquire.now.is_trylock acquire.now.mode is_ordered }
{
    if acquire.is_trylock || is_ordered {
        return Taking::Trying;
    }
    match acquire.mode {
        Mode::Writer | Mode::Reader => Taking::Waiting,
        Mode::Recursive => Taking::Reading,
    }
}

/// Whether an acquisition has to do with the class `NAME!read` of a class. `is_awaited` is true if a recursive
/// reader waits for the class, anywhere in the recording.
pub fn needs_readers(mode: Mode, taking: Taking, is_awaited: bool) -> bool
    ensures { result ≡ needs_readers_of mode taking is_awaited }
{
    match (mode, taking) {
        (Mode::Writer, Taking::Waiting | Taking::Trying) => is_awaited,
        (Mode::Reader | Mode::Recursive, Taking::Waiting | Taking::Trying) => false,
        (_, Taking::Reading) => true,
    }
}

/// How many locks of the stream a kept acquisition holds: a writer whom recursive readers wait for holds theirs too.
pub fn locks(mode: Mode, taking: Taking, is_awaited: bool) -> u8
    ensures { result ≡ locks_of mode taking is_awaited }
{
    match (mode, taking) {
        (Mode::Writer, Taking::Waiting | Taking::Trying) => if is_awaited { 2 } else { 1 },
        (Mode::Reader | Mode::Recursive, _) | (_, Taking::Reading) => 1,
    }
}

/// Whether a subclass stands as a class `NAME!N` of its own: no line says it of a trylock, of a class that
/// recursive readers wait for, or above 7.
pub fn is_apart(subclass: u8, taking: Taking, is_awaited: bool) -> bool
    ensures { result ≡ stands_apart subclass taking is_awaited }
{
    subclass > MOST_SUBCLASS || subclass > 0 && (is_awaited || !may_be_nested(taking))
}

/// The subclass that the line of an acquisition says; 0 if it says none.
pub fn sub_said(subclass: u8, taking: Taking, is_awaited: bool) -> u8
    ensures { result ≡ sub_of subclass taking is_awaited }
{
    if is_apart(subclass, taking, is_awaited) {
        0
    } else {
        subclass
    }
}

/// Whether a line `nested` can say the subclass of an acquisition.
fn may_be_nested(taking: Taking) -> bool
    ensures { result ≡ may_be_nested taking }
{
    match taking {
        Taking::Waiting => true,
        Taking::Trying | Taking::Reading => false,
    }
}
