//! How many lines some bytes have.
ghost use Rattle.std.specs.Prelude.{◌≡◌, ◌≤◌, count_by, length, map, take};
ghost use Rattle.std.specs.Simd.Lanes.{mask_l};
ghost use Rattle.ld_files.specs.Streams.{is_lf, line_count};

use ld_reduce::is_ended;
use std::simd::prelude::*;

/// How many bytes a vector has.
const LANES: usize = 32;

/// Some bytes at the front, and how many LFs stand among them.
#[derive(Clone, Copy)]
struct Front {
    len: usize,
    ends: u64,
}

/// How many lines the bytes have, the last one with or without its LF.
pub fn line_count(bytes: &[u8]) -> u64
    ensures { result ≡ line_count bytes.now }
{
    let count = line_end_count(bytes);
    if is_ended(bytes) { count } else { count + 1 }
}

/// How many LFs there are.
fn line_end_count(bytes: &[u8]) -> u64
    ensures count { result ≡ count_by is_lf bytes.now }
    ensures bound { result ≤ length bytes.now }
{
    let front = whole_vectors(bytes);
    front.ends + few_line_ends(&bytes[front.len..])
}

/// The bytes at the front that whole vectors have: fewer than one more has are left.
fn whole_vectors(bytes: &[u8]) -> Front
    ensures within { result.len ≤ length bytes.now }
    ensures ends { result.ends ≡ count_by is_lf (take result.len bytes.now) }
{
    let mut len = 0;
    let mut ends = 0;
    while bytes.len() - len >= LANES {
        ends += line_ends(u8x32::from_slice(&bytes[len..])).count_ones() as u64;
        len += LANES;
    }
    Front { len, ends }
}

/// Which of these bytes are LFs, as bits.
fn line_ends(bytes: u8x32) -> u64
    ensures { result ≡ mask_l (map is_lf bytes) }
{
    bytes.simd_eq(u8x32::splat(b'\n')).to_bitmask()
}

/// How many LFs there are, one byte after another.
fn few_line_ends(bytes: &[u8]) -> u64
    ensures count { result ≡ count_by is_lf bytes.now }
    ensures bound { result ≤ length bytes.now }
{
    let mut count = 0;
    for byte in bytes {
        if *byte == b'\n' {
            count += 1;
        }
    }
    count
}
