//! Names that a pattern matches.
ghost use Rattle.std.specs.Prelude.{◌≡◌, ◌∷◌, ℕ, Bool, List, MatchOption, [], false};
ghost use Rattle.ld_baseline.specs.Front.{IsFront};
ghost use Rattle.ld_baseline.specs.Match.{begins, is_match, is_star, some_end};

/// What the bytes of a pattern before its first `*` come to at the front of a name.
enum Front<'a> {
    /// There is no `*`, and the name is just these bytes.
    Whole,
    /// The name doesn't begin with these bytes, or there is no `*` and it goes on.
    Differs,
    /// The name begins with them: what stands behind the `*`, and what is left of the name.
    Star(&'a [u8], &'a [u8]),
}

pub(crate) fn is_star(byte: u8) -> bool
    ensures { result ≡ is_star byte }
{
    byte == b'*'
}

/// The first byte of a text, and what stands behind it.
fn first_byte(text: &[u8]) -> Option<(u8, &[u8])>
    ensures { MatchOption result (text.now ≡ []) (λ cut. text.now ≡ cut.0 ∷ cut.1.now) }
{
    match text.split_first() {
        Some((byte, behind)) => Some((*byte, behind)),
        None => None,
    }
}

/// What stands behind the first byte of a text, where it is this one.
fn behind_byte(text: &[u8], byte: u8) -> Option<&[u8]>
    ensures { MatchOption result ((passes : List ℕ → Bool) → begins byte passes text.now ≡ false)
        (λ behind. text.now ≡ byte ∷ behind.now) }
{
    match first_byte(text) {
        Some((first, behind)) if first == byte => Some(behind),
        _ => None,
    }
}

/// What the bytes of a pattern before its first `*` come to at the front of a name.
fn at_front<'a>(pattern: &'a [u8], name: &'a [u8]) -> Front<'a>
    ensures { IsFront pattern.entry.now name.entry.now result }
{
    let mut left = pattern;
    let mut rest = name;
    while let Some((byte, behind)) = first_byte(left) {
        if is_star(byte) {
            return Front::Star(behind, rest);
        }
        let Some(others) = behind_byte(rest, byte) else {
            return Front::Differs;
        };
        left = behind;
        rest = others;
    }
    if rest.is_empty() {
        Front::Whole
    } else {
        Front::Differs
    }
}

/// Whether some end of a name matches a pattern.
fn is_end_match(pattern: &[u8], name: &[u8]) -> bool
    ensures { result ≡ some_end (is_match pattern.now) name.now }
{
    let mut left = pattern;
    let mut rest = name;
    loop {
        match at_front(left, rest) {
            Front::Whole => return true,
            Front::Star(behind, others) => {
                left = behind;
                rest = others;
            }
            Front::Differs => {
                let [_, others @ ..] = rest else {
                    return false;
                };
                rest = others;
            }
        }
    }
}

/// Whether a name matches a pattern, in which each `*` stands for any bytes. It takes no more steps than the product of
/// their lengths.
pub(crate) fn is_match(pattern: &[u8], name: &[u8]) -> bool
    ensures { result ≡ is_match pattern.now name.now }
{
    match at_front(pattern, name) {
        Front::Whole => true,
        Front::Differs => false,
        Front::Star(behind, rest) => is_end_match(behind, rest),
    }
}
