//! Numbers and texts of a file, by their offsets.
ghost use Rattle.std.specs.Prelude.{◌≡◌, ◌+◌, ◌≤◌, length};
ghost use Rattle.std.specs.List.{position_or_len};
ghost use Rattle.ld_trace_dat.specs.Parts.{half, half_at, is_zero, key, long, long_at, long_sized, part, seen, text, word, word_at, word_sized};

use crate::fault::{DatFault, Wrong};

/// So many bytes from an offset on, and where they end.
#[tactic(auto, unfolding(crate::specs::Parts::part))]
pub(crate) fn part(bytes: &[u8], at: usize, size: usize) -> Result<(&[u8], usize), DatFault>
    ensures { seen (λ x. (x.0.now, x.1)) result ≡ part bytes.entry.now at size }
{
    if at > bytes.len() || size > bytes.len() - at {
        return Err(DatFault {
            offset: at,
            wrong: Wrong::Ends,
        });
    }
    Ok((&bytes[at..at + size], at + size))
}

/// Behind the bytes of a name that each file has at an offset.
#[tactic(auto, unfolding(crate::specs::Parts::key))]
pub(crate) fn key(bytes: &[u8], at: usize, wanted: &[u8], wrong: Wrong) -> Result<usize, DatFault>
    ensures { result ≡ key bytes.now at wanted.now wrong }
{
    let (found, end) = part(bytes, at, wanted.len())?;
    if found == wanted {
        Ok(end)
    } else {
        Err(DatFault { offset: at, wrong })
    }
}

/// The number of 2 bytes at a position.
fn half_at(bytes: &[u8], position: usize) -> u16
    requires { position + 2 ≤ length bytes.now }

    ensures { result ≡ half_at bytes.now position }
{
    u16::from(bytes[position]) + 256 * u16::from(bytes[position + 1])
}

/// The number of 4 bytes at a position.
fn word_at(bytes: &[u8], position: usize) -> u32
    requires { position + 4 ≤ length bytes.now }

    ensures { result ≡ word_at bytes.now position }
{
    u32::from(half_at(bytes, position)) + 65_536 * u32::from(half_at(bytes, position + 2))
}

/// The number of 8 bytes at a position.
fn long_at(bytes: &[u8], position: usize) -> u64
    requires { position + 8 ≤ length bytes.now }

    ensures { result ≡ long_at bytes.now position }
{
    u64::from(word_at(bytes, position)) + (1 << 32) * u64::from(word_at(bytes, position + 4))
}

/// The number of 2 bytes at an offset, and where it ends.
#[tactic(auto, unfolding(crate::specs::Parts::half))]
pub(crate) fn half(bytes: &[u8], at: usize) -> Result<(usize, usize), DatFault>
    ensures { result ≡ half bytes.now at }
{
    if at > bytes.len() || 2 > bytes.len() - at {
        return Err(DatFault {
            offset: at,
            wrong: Wrong::Ends,
        });
    }
    Ok((half_at(bytes, at) as usize, at + 2))
}

/// The number of 4 bytes at an offset, and where it ends.
#[tactic(auto, unfolding(crate::specs::Parts::word))]
pub(crate) fn word(bytes: &[u8], at: usize) -> Result<(usize, usize), DatFault>
    ensures { result ≡ word bytes.now at }
{
    if at > bytes.len() || 4 > bytes.len() - at {
        return Err(DatFault {
            offset: at,
            wrong: Wrong::Ends,
        });
    }
    Ok((word_at(bytes, at) as usize, at + 4))
}

/// The number of 8 bytes at an offset, and where it ends.
#[tactic(auto, unfolding(crate::specs::Parts::long))]
pub(crate) fn long(bytes: &[u8], at: usize) -> Result<(usize, usize), DatFault>
    ensures { result ≡ long bytes.now at }
{
    if at > bytes.len() || 8 > bytes.len() - at {
        return Err(DatFault {
            offset: at,
            wrong: Wrong::Ends,
        });
    }
    Ok((long_at(bytes, at) as usize, at + 8))
}

/// How many bytes stand before the first zero.
fn text_len(rest: &[u8]) -> usize
    ensures front { result ≡ position_or_len is_zero rest.now }
    ensures within { result ≤ length rest.now }
{
    rest.iter().take_while(|byte| **byte != 0).count()
}

/// The text at an offset, up to the first zero, and where that ends.
#[tactic(auto, unfolding(crate::specs::Parts::text))]
pub(crate) fn text(bytes: &[u8], at: usize) -> Result<(&[u8], usize), DatFault>
    ensures { seen (λ x. (x.0.now, x.1)) result ≡ text bytes.entry.now at }
{
    if at >= bytes.len() {
        return Err(DatFault {
            offset: at,
            wrong: Wrong::Ends,
        });
    }
    let rest = &bytes[at..];
    let len = text_len(rest);
    if len == rest.len() {
        return Err(DatFault {
            offset: at,
            wrong: Wrong::Ends,
        });
    }
    Ok((&rest[..len], at + len + 1))
}

/// The bytes behind a number of 4 bytes that says how many they are, and where they end.
#[tactic(auto, unfolding(crate::specs::Parts::word_sized))]
pub(crate) fn word_sized(bytes: &[u8], at: usize) -> Result<(&[u8], usize), DatFault>
    ensures { seen (λ x. (x.0.now, x.1)) result ≡ word_sized bytes.entry.now at }
{
    let (size, start) = word(bytes, at)?;
    part(bytes, start, size)
}

/// The bytes behind a number of 8 bytes that says how many they are, and where they end.
#[tactic(auto, unfolding(crate::specs::Parts::long_sized))]
pub(crate) fn long_sized(bytes: &[u8], at: usize) -> Result<(&[u8], usize), DatFault>
    ensures { seen (λ x. (x.0.now, x.1)) result ≡ long_sized bytes.entry.now at }
{
    let (size, start) = long(bytes, at)?;
    part(bytes, start, size)
}
