//! Locks that recursive readers wait for. Recorders write each as two classes: `L`, and `L!read`, for which the
//! readers wait and which writers hold.
ghost use Rattle.std.specs.Prelude.{Decides, List, MatchOption, ℕ};
ghost use Rattle.std.specs.List.Sorted.{IsPermutation};
ghost use Rattle.ld_class.specs.Names.{plain_class};
ghost use Rattle.ld_overview.specs.Readers.{HasReaders, IsForReaders};

use crate::names::write_class;
use crate::overview::ClassRow;
use ld_book::ClassName;
use std::alloc::AllocError;

/// The lock whose recursive readers wait for this class, `None` if it is a class of another kind: `L` for `L!read`.
/// Takes no memory.
pub fn lock_of_readers<'a>(class: ClassName<'a>) -> Option<&'a [u8]>
    ensures readers_of { MatchOption result
        ((lock : List ℕ) → ¬ IsForReaders lock (plain_class class.entry))
        (λ lock. IsForReaders lock.now (plain_class class.entry)) }
{
    let lock = class.name.strip_suffix(b"!read")?;
    if class.sub != 0 || lock.is_empty() {
        return None;
    }
    Some(lock)
}

/// Whether recursive readers of locks of the first class wait for the second one. Takes no memory.
pub fn has_readers(class: ClassName<'_>, other: ClassName<'_>) -> bool
    ensures { Decides result (HasReaders (plain_class class.entry) (plain_class other.entry)) }
{
    match lock_of_readers(other) {
        Some(lock) => class.sub == 0 && class.name == lock,
        None => false,
    }
}

/// Puts classes in the order of a report, but that `L!read` stands right behind `L`. Takes no memory.
pub fn sort_by_locks(rows: &mut Vec<ClassRow<'_>>)
    ensures { IsPermutation rows.old.items rows.new.items }
{
    rows.sort_unstable_by_key(|row| place_of(row.class));
}

/// The class of the locks that a class belongs to, and whether their readers wait for it.
fn place_of<'a>(class: ClassName<'a>) -> (ClassName<'a>, bool) {
    match lock_of_readers(class) {
        Some(name) => (ClassName { name, sub: 0 }, true),
        None => (class, false),
    }
}

/// Writes a class that a task waits for, `L (read)` for `L!read`.
///
/// # Errors
///
/// `AllocError` where memory was refused.
pub fn write_waited(text: &mut Vec<u8>, class: ClassName<'_>) -> Result<(), AllocError> {
    write_of_lock(text, class, b" (read)")
}

/// Writes a class that a task holds, `L (written)` for `L!read`.
///
/// # Errors
///
/// `AllocError` where memory was refused.
pub fn write_held(text: &mut Vec<u8>, class: ClassName<'_>) -> Result<(), AllocError> {
    write_of_lock(text, class, b" (written)")
}

/// Writes a class, or if readers wait for it, their lock and this word.
fn write_of_lock(text: &mut Vec<u8>, class: ClassName<'_>, word: &[u8]) -> Result<(), AllocError> {
    match lock_of_readers(class) {
        Some(lock) => {
            text.extend_from_slice(lock)?;
            text.extend_from_slice(word)
        }
        None => write_class(text, class),
    }
}
