//! The words of a line that a recorder wrote, and numbers among them.

/// What stands before the first blank, and what stands behind it.
pub(crate) fn cut(text: &[u8]) -> (&[u8], &[u8]) {
    match text.iter().position(|byte| *byte == b' ') {
        Some(place) => (
            text.get(..place).unwrap_or(&[]),
            text.get(place.saturating_add(1)..).unwrap_or(&[]),
        ),
        None => (text, &[]),
    }
}

/// The words of a line: what it says, and its fields, of which the last is all that is left.
#[derive(Clone, Copy)]
pub(crate) struct Fields<'a> {
    pub(crate) word: &'a [u8],
    pub(crate) first: &'a [u8],
    pub(crate) second: &'a [u8],
    pub(crate) third: &'a [u8],
}

impl<'a> Fields<'a> {
    pub(crate) fn of(line: &'a [u8]) -> Fields<'a> {
        let (word, fields) = cut(line);
        let (first, others) = cut(fields);
        let (second, third) = cut(others);
        Fields {
            word,
            first,
            second,
            third,
        }
    }
}

/// The number that these digits say; `None` where there is none, or one that isn't below 2^64.
pub(crate) fn number(text: &[u8]) -> Option<u64> {
    if text.is_empty() {
        return None;
    }
    let mut number: u64 = 0;
    for byte in text {
        if !byte.is_ascii_digit() {
            return None;
        }
        number = number
            .checked_mul(10)?
            .checked_add((*byte as u64).saturating_sub(b'0' as u64))?;
    }
    Some(number)
}

/// The number of these bytes, the least first.
pub(crate) fn of_bytes(bytes: &[u8]) -> u64 {
    let mut number: u64 = 0;
    for byte in bytes.iter().rev() {
        number = number.wrapping_mul(1 << 8).wrapping_add(*byte as u64);
    }
    number
}
