//! The words and names at the front of some bytes, by a vector of them.
ghost use Rattle.std.specs.Prelude.{◌≡◌, ◌<◌, ◌≤◌, ◌++◌, ℕ, List, true, not, drop, length, map, take, IfSome};
ghost use Rattle.std.specs.Char.{is_ascii_graphic};
ghost use Rattle.std.specs.List.{prefix_len};
ghost use Rattle.std.specs.Simd.Lanes.{mask_l};
ghost use Rattle.ld_trace.specs.Lines.{is_name, is_word};
ghost use Rattle.ld_trace.specs.Inner.Front.{AreEnds, IsFront, in_name};
ghost use Rattle.ld_trace.specs.Inner.Plain.{IsEnded};

use crate::line::{LONGEST_WORD, is_separator};
use std::simd::prelude::*;

/// How many bytes a vector has.
const LANES: usize = 32;

/// Where words end, and names, among some bytes at the front: which of these stand in no word, and which in no
/// name, as bits.
#[derive(Clone, Copy)]
pub struct Ends {
    /// How many bytes the bits speak of.
    pub seen: usize,
    pub words: u64,
    pub names: u64,
}

impl Ends {
    /// Those of as many bytes as a vector has, or of all where there are fewer.
    #[inline(always)]
    pub fn of(bytes: &[u8]) -> Ends
        ensures { AreEnds bytes.now result }
    {
        if bytes.len() < LANES {
            return Ends::of_few(bytes);
        }
        let front = u8x32::from_slice(bytes);
        Ends {
            seen: LANES,
            words: outside_words(front),
            names: outside_names(front),
        }
    }

    /// Those of fewer bytes than a vector has.
    #[inline(never)]
    fn of_few(bytes: &[u8]) -> Ends
        requires { length bytes.now < LANES }
        ensures { AreEnds bytes.now result }
    {
        let front = u8x32::from_array(padded(bytes));
        let known = (1 << bytes.len()) - 1;
        Ends {
            seen: bytes.len(),
            words: outside_words(front) & known,
            names: outside_names(front) & known,
        }
    }

    /// Those of the bytes behind so many.
    #[inline(always)]
    pub fn behind(self, count: usize) -> Ends
        requires { self.seen ≤ LANES }
        ensures { (bytes : List ℕ) → AreEnds bytes self → AreEnds (drop count bytes) result }
    {
        if self.seen <= count {
            return Ends {
                seen: 0,
                words: 0,
                names: 0,
            };
        }
        Ends {
            seen: self.seen - count,
            words: self.words >> count,
            names: self.names >> count,
        }
    }
}

/// As many bytes as a vector has, of which these are the first.
fn padded(bytes: &[u8]) -> [u8; LANES]
    requires { length bytes.now < LANES }
    ensures { take (length bytes.now) result ≡ bytes.now }
{
    let mut front = [0; LANES];
    front[..bytes.len()].copy_from_slice(bytes);
    front
}

/// Which of these bytes stand in no word, as bits.
fn outside_words(bytes: u8x32) -> u64
    ensures { result ≡ mask_l (map (λ b. not (is_ascii_graphic b)) bytes) }
{
    (bytes - u8x32::splat(b'!'))
        .simd_ge(u8x32::splat(94))
        .to_bitmask()
}

/// How many bytes of words stand at the front, of which these ends are known.
#[inline(always)]
fn word_len(bytes: &[u8], ends: Ends) -> usize
    requires { AreEnds bytes.now ends }
    ensures front { result ≡ prefix_len is_ascii_graphic bytes.now }
    ensures within { result ≤ length bytes.now }
{
    if ends.words != 0 {
        return ends.words.trailing_zeros() as usize;
    }
    far_word_len(bytes)
}

/// The same, of a word that doesn't end among the bytes that were seen.
#[inline(never)]
fn far_word_len(bytes: &[u8]) -> usize
    ensures front { result ≡ prefix_len is_ascii_graphic bytes.now }
    ensures within { result ≤ length bytes.now }
{
    if bytes.len() >= LANES {
        let outside = outside_words(u8x32::from_slice(bytes));
        if outside != 0 {
            return outside.trailing_zeros() as usize;
        }
    }
    bytes
        .iter()
        .take_while(|byte| byte.is_ascii_graphic())
        .count()
}

/// The word at the front, as far as it goes, and what follows it, by the ends of words and names that were seen.
/// `None` says nothing.
#[inline(always)]
pub fn next_word(bytes: &[u8], ends: Ends) -> Option<(&[u8], &[u8])>
    requires { AreEnds bytes.now ends }
    ensures whole { IfSome result (λ cut. bytes.now ≡ cut.0.now ++ cut.1.now) }
    ensures spelled { IfSome result (λ cut. is_word cut.0.now ≡ true) }
{
    cut(bytes, word_len(bytes, ends))
}

/// Whether a byte stands in names.
fn in_name(byte: u8) -> bool
    ensures { result ≡ in_name byte }
{
    byte.is_ascii_graphic() && !is_separator(byte)
}

/// Which of these bytes stand in no name, as bits.
fn outside_names(bytes: u8x32) -> u64
    ensures { result ≡ mask_l (map (λ b. not (in_name b)) bytes) }
{
    ((bytes - u8x32::splat(b'!')).simd_ge(u8x32::splat(94))
        | bytes.simd_eq(u8x32::splat(b'@'))
        | bytes.simd_eq(u8x32::splat(b'/'))).to_bitmask()
}

/// How many bytes of names stand at the front, of which these ends are known.
#[inline(always)]
fn name_len(bytes: &[u8], ends: Ends) -> usize
    requires { AreEnds bytes.now ends }
    ensures front { result ≡ prefix_len in_name bytes.now }
    ensures within { result ≤ length bytes.now }
{
    if ends.names != 0 {
        return ends.names.trailing_zeros() as usize;
    }
    far_name_len(bytes)
}

/// The same, of a name that doesn't end among the bytes that were seen.
#[inline(never)]
fn far_name_len(bytes: &[u8]) -> usize
    ensures front { result ≡ prefix_len in_name bytes.now }
    ensures within { result ≤ length bytes.now }
{
    if bytes.len() >= LANES {
        let outside = outside_names(u8x32::from_slice(bytes));
        if outside != 0 {
            return outside.trailing_zeros() as usize;
        }
    }
    bytes.iter().take_while(|byte| in_name(**byte)).count()
}

/// The name at the front, as far as it goes, and what follows it, by the ends of words and names that were seen.
/// `None` says nothing.
#[inline(always)]
pub fn next_name(bytes: &[u8], ends: Ends) -> Option<(&[u8], &[u8])>
    requires { AreEnds bytes.now ends }
    ensures whole { IfSome result (λ cut. bytes.now ≡ cut.0.now ++ cut.1.now) }
    ensures spelled { IfSome result (λ cut. is_name cut.0.now ≡ true) }
{
    cut(bytes, name_len(bytes, ends))
}

/// So many bytes at the front, and what follows them, where a word may have so many.
fn cut(bytes: &[u8], len: usize) -> Option<(&[u8], &[u8])>
    requires { len ≤ length bytes.now }
    ensures front { IfSome result (λ cut. IsFront bytes.now len cut.0.now) }
    ensures whole { IfSome result (λ cut. bytes.now ≡ cut.0.now ++ cut.1.now) }
{
    if len == 0 || len > LONGEST_WORD {
        return None;
    }
    Some(bytes.split_at(len))
}

/// What follows the end of a line that stands at the front: an LF, or a CR and an LF.
#[inline(always)]
pub fn behind_end(bytes: &[u8]) -> Option<&[u8]>
    ensures { IfSome result (λ rest. IsEnded bytes.now rest.now) }
{
    match bytes {
        [b'\n', rest @ ..] | [b'\r', b'\n', rest @ ..] => Some(rest),
        _ => None,
    }
}
