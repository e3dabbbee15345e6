//! The lines of traces that a line of a report names.

use crate::said::{field, is_conflict, is_field, is_forbidden, is_inversion, is_recursion};

/// The numbers of the lines that a line of a report, without its end, names: those of its witnesses, or that of the
/// fault of a refused trace.
pub fn lines_named(text: &[u8]) -> [Option<u64>; 2] {
    if is_field(text, 0, b"refused") {
        [number(field(text, 3)), None]
    } else if is_recursion(text) {
        [line_of(field(text, 3)), None]
    } else if is_inversion(text) {
        [line_of(field(text, 5)), None]
    } else if is_conflict(text) {
        [line_of(field(text, 5)), line_of(field(text, 7))]
    } else if is_forbidden(text) {
        [line_of(field(text, 5)), line_of(field(text, 10))]
    } else {
        [None, None]
    }
}

/// The line of a witness `T:L`.
fn line_of(witness: &[u8]) -> Option<u64> {
    let colon = witness.iter().rposition(|byte| *byte == b':')?;
    number(witness.get(colon.saturating_add(1)..)?)
}

/// The number that these digits say; `None` where there is none, or one that isn't below 2^64.
fn number(digits: &[u8]) -> Option<u64> {
    if digits.is_empty() {
        return None;
    }
    let mut number: u64 = 0;
    for byte in digits {
        if !byte.is_ascii_digit() {
            return None;
        }
        number = number
            .checked_mul(10)?
            .checked_add((*byte as u64).saturating_sub(b'0' as u64))?;
    }
    Some(number)
}
