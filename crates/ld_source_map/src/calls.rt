//! The calls that led to a place, one after another.

use crate::words::{cut, number};
use std::alloc::{AllocError, Global};

/// A call, by where it stands in the source. Texts stand as the recorder wrote them ([`crate::write_plain`]).
#[derive(Clone, Copy, Debug, PartialEq, Eq)]
pub struct Call<'m> {
    /// The function; `?` if it is unknown.
    pub function: &'m [u8],
    /// The source file, or `FILE+OFFSET` without debug information.
    pub file: &'m [u8],
    /// The line of the source file, `None` without debug information.
    pub line: Option<u64>,
}

/// The calls that led to a place, the innermost first: one at least. The place is that of a map: its function, and
/// its source with the calls around it, as `FILE:LINE, from FUNCTION at FILE:LINE, ..`.
///
/// # Errors
///
/// `AllocError` where a growth of memory was refused.
pub fn calls_of<'m>(
    alloc: Global,
    function: &'m [u8],
    source: &'m [u8],
) -> Result<Vec<Call<'m>>, AllocError> {
    let mut calls = Vec::new(alloc);
    let mut function = function;
    let mut left = source;
    // Each call but the last one has a comma.
    for _ in 0..=source.len() {
        let (place, around) = cut_place(left);
        calls.push(call_at(function, place))?;
        let Some((caller, rest)) = around else {
            break;
        };
        function = caller;
        left = rest;
    }
    Ok(calls)
}

/// The place of the first call, and the function and the places of the calls around it, if there are some.
fn cut_place(text: &[u8]) -> (&[u8], Option<(&[u8], &[u8])>) {
    let (first, rest) = cut(text);
    match (first.strip_suffix(b","), caller(rest)) {
        (Some(place), Some(caller)) => (place, Some(caller)),
        _ => (text, None),
    }
}

/// What `from FUNCTION at ..` says: the function, and what follows.
fn caller(text: &[u8]) -> Option<(&[u8], &[u8])> {
    let (function, rest) = cut(text.strip_prefix(b"from ")?);
    Some((function, rest.strip_prefix(b"at ")?))
}

/// The call of a function at `FILE:LINE`, or at `FILE+OFFSET`.
fn call_at<'m>(function: &'m [u8], place: &'m [u8]) -> Call<'m> {
    let (file, line) = match cut_line(place) {
        Some((file, line)) => (file, Some(line)),
        None => (place, None),
    };
    Call {
        function,
        file,
        line,
    }
}

/// What stands before the last colon of a place, and the number behind it. `None` if there is none.
fn cut_line(place: &[u8]) -> Option<(&[u8], u64)> {
    let colon = place.iter().rposition(|byte| *byte == b':')?;
    let line = number(place.get(colon.saturating_add(1)..)?)?;
    Some((place.get(..colon)?, line))
}
