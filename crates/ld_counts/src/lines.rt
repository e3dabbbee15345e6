//! Lines as most are, told by one vector of their bytes. They are of a trace that was read, so none of them has a
//! fault.

use std::simd::prelude::*;

/// How many bytes a vector has.
const LANES: usize = 32;

/// The words of a line `VERB TASK LOCK` that has one blank between two of them and nothing else before its LF.
#[derive(Clone, Copy)]
pub(crate) struct Words<'a> {
    pub task: &'a [u8],
    pub lock: &'a [u8],
    /// What follows the verb, with the LF.
    pub text: &'a [u8],
    /// What follows the line.
    pub rest: &'a [u8],
}

/// The words of the first line, if that acquires a lock, is in its plainest form, and ends within a vector. `None`
/// says nothing.
#[inline(always)]
pub(crate) fn next_acquisition(bytes: &[u8]) -> Option<Words<'_>> {
    words_behind(bytes.strip_prefix(b"acquire ")?)
}

/// The same, if it tries to acquire a lock.
#[inline(always)]
pub(crate) fn next_trylock(bytes: &[u8]) -> Option<Words<'_>> {
    words_behind(bytes.strip_prefix(b"try ")?)
}

/// The same, if it releases a lock.
#[inline(always)]
pub(crate) fn next_release(bytes: &[u8]) -> Option<Words<'_>> {
    words_behind(bytes.strip_prefix(b"release ")?)
}

/// The words of a line whose verb and blank stand before these bytes.
#[inline(always)]
fn words_behind(behind: &[u8]) -> Option<Words<'_>> {
    if behind.len() < LANES {
        return None;
    }
    let ends = outside_words(u8x32::from_slice(behind));
    let task_end = ends.trailing_zeros() as usize;
    // The lowest bit is taken off, so the next one is found.
    let line_end = (ends & ends.wrapping_sub(1)).trailing_zeros() as usize;
    if line_end >= LANES {
        return None;
    }
    let lock = behind.get(task_end.saturating_add(1)..line_end)?;
    let (text, rest) = split_behind(behind, line_end)?;
    if behind.get(task_end) != Some(&b' ') || behind.get(line_end) != Some(&b'\n') {
        return None;
    }
    let task = behind.get(..task_end)?;
    Some(Words {
        task,
        lock,
        text,
        rest,
    })
}

/// What follows the first line, if that releases a lock and ends within a vector. `None` says nothing.
#[inline(always)]
pub(crate) fn behind_release(bytes: &[u8]) -> Option<&[u8]> {
    let behind = bytes.strip_prefix(b"release ")?;
    if behind.len() < LANES {
        return None;
    }
    let ends = u8x32::from_slice(behind)
        .simd_eq(u8x32::splat(b'\n'))
        .to_bitmask();
    if ends == 0 {
        return None;
    }
    let (_, rest) = split_behind(behind, ends.trailing_zeros() as usize)?;
    Some(rest)
}

/// The bytes up to this place with the one that stands there, and those behind it.
#[inline(always)]
fn split_behind(bytes: &[u8], place: usize) -> Option<(&[u8], &[u8])> {
    bytes.split_at_checked(place.saturating_add(1))
}

/// Which of these bytes stand in no word, as bits.
#[inline(always)]
fn outside_words(bytes: u8x32) -> u64 {
    (bytes - u8x32::splat(b'!'))
        .simd_ge(u8x32::splat(94))
        .to_bitmask()
}

/// Whether these are the same bytes. Of 8 to 32, as most texts have, those at both ends are compared as numbers.
#[inline(always)]
pub(crate) fn same_bytes(a: &[u8], b: &[u8]) -> bool {
    if a.len() != b.len() || a.len() > 32 {
        return a == b;
    }
    match (
        a.first_chunk(),
        b.first_chunk(),
        a.last_chunk(),
        b.last_chunk(),
    ) {
        (Some(first), Some(other_first), Some(last), Some(other_last)) => {
            u128::from_le_bytes(*first) == u128::from_le_bytes(*other_first)
                && u128::from_le_bytes(*last) == u128::from_le_bytes(*other_last)
        }
        _ => same_few(a, b),
    }
}

/// The same, of as many bytes on either side, fewer than 16.
#[inline(always)]
fn same_few(a: &[u8], b: &[u8]) -> bool {
    match (
        a.first_chunk(),
        b.first_chunk(),
        a.last_chunk(),
        b.last_chunk(),
    ) {
        (Some(first), Some(other_first), Some(last), Some(other_last)) => {
            u64::from_le_bytes(*first) == u64::from_le_bytes(*other_first)
                && u64::from_le_bytes(*last) == u64::from_le_bytes(*other_last)
        }
        _ => a == b,
    }
}
