//! Numbers of the bytes of a page: little endian, of 4 and 8 bytes.
ghost use Rattle.std.specs.Prelude.{◌≡◌, ◌+◌, ◌≤◌, length};
ghost use Rattle.ld_pages.specs.Words.{long_at, word_at};

/// The number that 4 bytes from a position on spell.
pub(crate) fn word_at(bytes: &[u8], position: usize) -> u32
    requires { position + 4 ≤ length bytes.now }

    ensures { result ≡ word_at bytes.now position }
{
    let low = u32::from(bytes[position]) + 256 * u32::from(bytes[position + 1]);
    let high = u32::from(bytes[position + 2]) + 256 * u32::from(bytes[position + 3]);
    low + 65_536 * high
}

/// The number that 8 bytes from a position on spell.
pub(crate) fn long_at(bytes: &[u8], position: usize) -> u64
    requires { position + 8 ≤ length bytes.now }

    ensures { result ≡ long_at bytes.now position }
{
    u64::from(word_at(bytes, position)) + (1 << 32) * u64::from(word_at(bytes, position + 4))
}
