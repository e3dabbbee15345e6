//! Lines of a text, and what stands in them.
ghost use Rattle.std.specs.Prelude.{◌≡◌, ◌<◌, ◌≤◌, ◌∷◌, [], length, not, true, MatchOption};
ghost use Rattle.std.specs.Char.{is_ascii_digit};
ghost use Rattle.std.specs.List.{list_all, position_or_len, suffix_len};
ghost use Rattle.ld_layout.specs.Lines.{decimal, fitting, is_blank, is_lf, is_semicolon, last_word, lines, number, seen, tail_of, value, with_digit};

use crate::fault::Wrong;

/// How many bytes stand before the first LF.
fn line_len(text: &[u8]) -> usize
    ensures front { result ≡ position_or_len is_lf text.now }
    ensures within { result ≤ length text.now }
{
    text.iter().take_while(|byte| **byte != b'\n').count()
}

/// Cuts the first line off, without its LF, and gives it and what follows; `None` where there is no byte.
pub(crate) fn next_line(text: &[u8]) -> Option<(&[u8], &[u8])>
    ensures first { MatchOption result (lines text.now ≡ []) (λ cut. lines text.now ≡ cut.0.now ∷ lines cut.1.now) }
    ensures shorter { MatchOption result (text.now ≡ []) (λ cut. length cut.1.now < length text.now) }
{
    if text.is_empty() {
        return None;
    }
    let len = line_len(text);
    if len == text.len() {
        return Some((text, &[]));
    }
    let (line, _) = text.split_at(len);
    let (_, rest) = text.split_at(len + 1);
    Some((line, rest))
}

/// How many bytes stand before the first `;`.
fn value_len(text: &[u8]) -> usize
    ensures front { result ≡ position_or_len is_semicolon text.now }
    ensures within { result ≤ length text.now }
{
    text.iter().take_while(|byte| **byte != b';').count()
}

/// What stands behind a key; `None` where the text begins otherwise.
pub(crate) fn tail<'a>(text: &'a [u8], key: &[u8], wrong: Wrong) -> Result<&'a [u8], Wrong>
    ensures { seen (λ x. x.now) result ≡ tail_of text.entry.now key.now wrong }
{
    if text.starts_with(key) {
        Ok(&text[key.len()..])
    } else {
        Err(wrong)
    }
}

/// What stands behind a key, up to the next `;`, and what follows that.
#[tactic(auto, unfolding(crate::specs::Lines::value))]
pub(crate) fn value<'a>(text: &'a [u8], key: &[u8]) -> Result<(&'a [u8], &'a [u8]), Wrong>
    ensures { seen (λ x. (x.0.now, x.1.now)) result ≡ value text.entry.now key.now }
{
    let rest = tail(text, key, Wrong::Field)?;
    let len = value_len(rest);
    if len == rest.len() {
        return Err(Wrong::Field);
    }
    let (value, _) = rest.split_at(len);
    let (_, rest) = rest.split_at(len + 1);
    Ok((value, rest))
}

/// How many bytes stand behind the last blank.
fn word_len(text: &[u8]) -> usize
    ensures back { result ≡ suffix_len (λ b. not (is_blank b)) text.now }
    ensures within { result ≤ length text.now }
{
    text.iter().rev().take_while(|byte| **byte != b' ').count()
}

/// What stands behind the last blank.
pub(crate) fn last_word(text: &[u8]) -> &[u8]
    ensures { result.now ≡ last_word text.now }
{
    &text[text.len() - word_len(text)..]
}

fn are_digits(text: &[u8]) -> bool
    ensures { result ≡ list_all is_ascii_digit text.now }
{
    text.iter().all(|byte| byte.is_ascii_digit())
}

/// A number with one more digit, if 32 bits hold it.
fn with_digit(number: u32, digit: u8) -> Option<u32>
    requires { 48 ≤ digit }

    ensures { result ≡ fitting (with_digit number digit) }
{
    let number = 10 * u64::from(number) + u64::from(digit - b'0');
    u32::try_from(number).ok()
}

/// The number that the digits spell, if 32 bits hold it.
fn spelled(digits: &[u8]) -> Option<u32>
    requires { list_all is_ascii_digit digits.now ≡ true }

    ensures { result ≡ fitting (decimal digits.now) }
{
    let mut number = 0u32;
    for digit in digits {
        match with_digit(number, *digit) {
            Some(more) => number = more,
            None => return None,
        }
    }
    Some(number)
}

/// The number that decimal digits spell.
pub(crate) fn number(digits: &[u8]) -> Result<u32, Wrong>
    ensures { result ≡ number digits.now }
{
    if digits.is_empty() || !are_digits(digits) {
        return Err(Wrong::Number);
    }
    match spelled(digits) {
        Some(number) => Ok(number),
        None => Err(Wrong::Number),
    }
}
