//! Hints where things that are met again and again were found last.

use std::alloc::{AllocError, Global};

/// How many hints there are.
pub(crate) const HINTS: usize = 1 << 14;

/// An odd number by which bits are spread.
const SPREAD: u64 = 0x9e37_79b9_7f4a_7c15;

/// By a number that is made of a key, the number that was noted last for a key like it. A hint has no meaning:
/// whoever reads one looks whether it is right.
#[derive(Drop)]
pub(crate) struct Hints {
    numbers: Vec<u64>,
}

impl Hints {
    /// 0 for every key.
    pub(crate) fn new(alloc: Global) -> Result<Hints, AllocError> {
        let numbers = vec![in alloc; 0; HINTS]?;
        Ok(Hints { numbers })
    }

    /// What was noted last for a key like this one.
    pub(crate) fn of(&self, key: u64) -> u64 {
        self.numbers.get(slot(key)).copied().unwrap_or(0)
    }

    /// The key has this number.
    pub(crate) fn note(&mut self, key: u64, number: u64) {
        if let Some(noted) = self.numbers.get_mut(slot(key)) {
            *noted = number;
        }
    }
}

/// The place of a key.
pub(crate) fn slot(key: u64) -> usize {
    (key / (1 << 50)) as usize
}

/// A key of which each bit is touched by those of both numbers.
pub(crate) fn mixed(first: u64, second: u64) -> u64 {
    let product = first
        .wrapping_mul(SPREAD)
        .wrapping_add(second)
        .wrapping_mul(SPREAD);
    (product ^ (product >> 32)).wrapping_mul(SPREAD)
}

/// A key that is made of some bytes: of both ends where they are eight or more.
pub(crate) fn key_of(bytes: &[u8]) -> u64 {
    match (bytes.first_chunk(), bytes.last_chunk()) {
        (Some(first), Some(last)) => mixed(u64::from_le_bytes(*first), u64::from_le_bytes(*last)),
        _ => mixed(folded(bytes), 0),
    }
}

/// All bytes, of fewer than eight.
fn folded(bytes: &[u8]) -> u64 {
    let mut folded: u64 = 0;
    for byte in bytes {
        folded = folded.wrapping_mul(1 << 8).wrapping_add(*byte as u64);
    }
    folded
}
