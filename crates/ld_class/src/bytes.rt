//! Bytes that are compared where this is asked for, without a call.
ghost use Rattle.std.specs.Prelude.{◌≡◌, length};
ghost use Rattle.std.specs.Str.{bytes_eq};

/// Whether these are the same bytes. Of 8 to 16, as most names have, the first eight and the last eight are
/// compared, and fewer likewise, down to two.
#[inline(always)]
pub fn same_bytes(a: &[u8], b: &[u8]) -> bool
    ensures { result ≡ bytes_eq a.now b.now }
{
    if a.len() != b.len() {
        return false;
    }
    if a.len() > 16 {
        return a == b;
    }
    match (
        a.first_chunk(),
        b.first_chunk(),
        a.last_chunk(),
        b.last_chunk(),
    ) {
        (Some(first), Some(other_first), Some(last), Some(other_last)) => {
            same_word(first, other_first) && same_word(last, other_last)
        }
        _ => same_short(a, b),
    }
}

/// The same, of as many bytes on either side. Of two to four, as most instances have, the first two and the last
/// two are compared.
#[inline(always)]
fn same_short(a: &[u8], b: &[u8]) -> bool
    requires { length a.now ≡ length b.now }
    ensures { result ≡ bytes_eq a.now b.now }
{
    if a.len() > 4 {
        return same_halves(a, b);
    }
    match (
        a.first_chunk(),
        b.first_chunk(),
        a.last_chunk(),
        b.last_chunk(),
    ) {
        (Some(first), Some(other_first), Some(last), Some(other_last)) => {
            same_two(first, other_first) && same_two(last, other_last)
        }
        _ => a == b,
    }
}

/// The same, of five to eight bytes: the first four and the last four are compared.
#[inline(always)]
fn same_halves(a: &[u8], b: &[u8]) -> bool
    requires { length a.now ≡ length b.now }
    ensures { result ≡ bytes_eq a.now b.now }
{
    if a.len() > 8 {
        return a == b;
    }
    match (
        a.first_chunk(),
        b.first_chunk(),
        a.last_chunk(),
        b.last_chunk(),
    ) {
        (Some(first), Some(other_first), Some(last), Some(other_last)) => {
            same_four(first, other_first) && same_four(last, other_last)
        }
        _ => a == b,
    }
}

/// Whether these four bytes are the same.
#[inline(always)]
fn same_four(a: &[u8; 4], b: &[u8; 4]) -> bool
    ensures { result ≡ bytes_eq a.now b.now }
{
    u32::from_le_bytes(*a) == u32::from_le_bytes(*b)
}

/// Whether these two bytes are the same.
#[inline(always)]
fn same_two(a: &[u8; 2], b: &[u8; 2]) -> bool
    ensures { result ≡ bytes_eq a.now b.now }
{
    u16::from_le_bytes(*a) == u16::from_le_bytes(*b)
}

/// Whether these eight bytes are the same.
#[inline(always)]
fn same_word(a: &[u8; 8], b: &[u8; 8]) -> bool
    ensures { result ≡ bytes_eq a.now b.now }
{
    u64::from_le_bytes(*a) == u64::from_le_bytes(*b)
}
