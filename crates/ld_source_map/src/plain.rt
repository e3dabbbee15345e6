//! Texts of a recorder as they were before it wrote them.

use std::alloc::AllocError;

/// Writes a text that a recorder wrote: % and two hexadecimal digits are the byte of that number.
///
/// # Errors
///
/// `AllocError` where a growth of memory was refused.
pub fn write_plain(out: &mut Vec<u8>, written: &[u8]) -> Result<(), AllocError> {
    let mut left = written;
    // Each step takes a byte at least.
    for _ in 0..written.len() {
        let Some((byte, rest)) = next_plain(left) else {
            break;
        };
        out.push(byte)?;
        left = rest;
    }
    Ok(())
}

/// The first byte that a text stands for, and what follows it in the text. `None` where there is none.
fn next_plain(text: &[u8]) -> Option<(u8, &[u8])> {
    if let [b'%', high, low, rest @ ..] = text
        && let (Some(high), Some(low)) = (digit(*high), digit(*low))
    {
        return Some((high.wrapping_mul(16).wrapping_add(low), rest));
    }
    let (byte, rest) = text.split_first()?;
    Some((*byte, rest))
}

/// What a hexadecimal digit stands for.
fn digit(byte: u8) -> Option<u8> {
    match byte {
        b'0'..=b'9' => Some(byte.saturating_sub(b'0')),
        b'A'..=b'F' => Some(byte.saturating_sub(b'A').saturating_add(10)),
        _ => None,
    }
}
