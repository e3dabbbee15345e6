//! The lines at the front of some bytes that are no headers, told from headers 32 bytes at a time.
ghost use Rattle.std.specs.Prelude.{◌≡◌, ◌≤◌, count_by, length, map, take};
ghost use Rattle.std.specs.Simd.Lanes.{mask_l};
ghost use Rattle.ld_trace.specs.Inner.Splitting.{AreSkipped, IsQuiet, is_lf, may_begin};

use memchr::memrchr;
use std::simd::prelude::*;

/// How many bytes a vector has.
const LANES: usize = 32;

/// What is left of a stream behind some lines, and how many these are.
#[derive(Clone, Copy)]
pub struct Rest<'a> {
    pub bytes: &'a [u8],
    pub count: u64,
}

/// Which of these bytes are LFs, as bits.
fn line_ends(bytes: u8x32) -> u64
    ensures { result ≡ mask_l (map is_lf bytes) }
{
    bytes.simd_eq(u8x32::splat(b'\n')).to_bitmask()
}

/// Which of these bytes a header may begin with, as bits.
fn header_starts(bytes: u8x32) -> u64
    ensures { result ≡ mask_l (map may_begin bytes) }
{
    (bytes.simd_eq(u8x32::splat(b't'))
        | bytes.simd_eq(u8x32::splat(b' '))
        | bytes.simd_eq(u8x32::splat(b'\t'))).to_bitmask()
}

/// Whether a header may begin with this byte.
fn may_begin(byte: u8) -> bool
    ensures { result ≡ may_begin byte }
{
    byte == b't' || byte == b' ' || byte == b'\t'
}

/// Some bytes at the front, and how many lines end in them.
#[derive(Clone, Copy)]
struct Quiet {
    len: usize,
    ends: u64,
}

/// Bytes at the front after whose line ends no header begins, as many as whole vectors tell.
fn quiet_front(bytes: &[u8]) -> Quiet
    ensures within { result.len ≤ length bytes.now }
    ensures quiet { IsQuiet bytes.now result.len }
    ensures ends { result.ends ≡ count_by is_lf (take result.len bytes.now) }
{
    let mut len = 0;
    let mut ends = 0;
    while bytes.len() - len > LANES {
        let here = line_ends(u8x32::from_slice(&bytes[len..]));
        let starts = header_starts(u8x32::from_slice(&bytes[len + 1..]));
        if here & starts != 0 {
            break;
        }
        ends += here.count_ones() as u64;
        len += LANES;
    }
    Quiet { len, ends }
}

/// What is left behind lines at the front that are no headers, since each begins with a byte that no
/// header begins with: as many of them as are told so at once, none where the first one isn't.
pub fn skip_others(bytes: &[u8]) -> Rest<'_>
    ensures { AreSkipped bytes.now result.count result.bytes.now }
{
    let none = Rest { bytes, count: 0 };
    let [first, ..] = bytes else {
        return none;
    };
    if may_begin(*first) {
        return none;
    }
    let quiet = quiet_front(bytes);
    match memrchr(b'\n', &bytes[..quiet.len]) {
        Some(last) => Rest {
            bytes: &bytes[last + 1..],
            count: quiet.ends,
        },
        None => none,
    }
}
