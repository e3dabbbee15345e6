//! The numbers that an entry begins with, out of the bytes.
ghost use Rattle.std.specs.Prelude.{◌≡◌, ◌+◌, ◌^◌, ◌<◌, ◌≤◌, length};
ghost use Rattle.ld_pages.specs.Entries.{entry_at, second_at};

use crate::entry::Entry;
use crate::words::word_at;

/// The word behind the first one of an entry.
fn second_at(bytes: &[u8], position: usize) -> u32
    requires { position + 4 ≤ length bytes.now }

    ensures { result ≡ second_at bytes.now position }
{
    if bytes.len() - position < 8 {
        0
    } else {
        word_at(bytes, position + 4)
    }
}

/// The entry at a position.
pub(crate) fn entry_at(bytes: &[u8], position: usize) -> Entry
    requires { position + 4 ≤ length bytes.now }

    ensures entry { result ≡ entry_at bytes.now position }
    ensures delta { result.delta < 2 ^ 27 }
{
    let first = word_at(bytes, position);
    Entry {
        kind: first % 32,
        delta: first / 32,
        second: second_at(bytes, position),
    }
}
