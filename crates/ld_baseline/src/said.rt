//! What a line of a report says, whatever its witnesses and the walk that it shows.
ghost use Rattle.std.specs.Prelude.{◌≡◌, ◌≤◌, length};
ghost use Rattle.std.specs.List.{after_first, before_first, list_any, position_or_len};
ghost use Rattle.std.specs.Option.{option_map};
ghost use Rattle.ld_baseline.specs.Said.{field, is_conflict, is_field, is_forbidden, is_inversion, is_recursion};
ghost use Rattle.ld_baseline.specs.Said.{is_space, is_state, plain_said, said_by};
ghost use Rattle.ld_baseline.specs.Match.{has_star, is_star, matches};

use crate::pattern::{is_match, is_star};
use std::hash::{Hash, Hasher};

/// What a line of a report says of a violation.
#[derive(Clone, Copy, Debug, PartialEq, Eq)]
pub struct Said<'a> {
    /// `recursion`, `inversion`, `conflict` or `forbidden`.
    pub kind: &'a [u8],
    /// `hard` or `soft`, and empty where the kind has no state.
    pub state: &'a [u8],
    /// The class, or the first of the two.
    pub from: &'a [u8],
    /// The second class, and empty where the kind has one.
    pub to: &'a [u8],
}

// The bytes of each part are hashed by one write, where a slice hashes them one by one.
impl<'a> Hash for Said<'a> {
    ghost use Rattle.std.specs.Prelude.{[], ◌∷◌};
    ghost use Rattle.std.specs.Cmp.Rules.{hashing};
    ghost use Rattle.std.proofs.Common.{rules};

    ghost hash_input = { λ said. said.kind.now ∷ said.state.now ∷ said.from.now ∷ said.to.now ∷ [] };

    ghost respects_eq = { Prim.search (hashing, rules) };

    fn hash<H: Hasher>(&self, state: &mut H) {
        state.write(self.kind);
        state.write(self.state);
        state.write(self.from);
        state.write(self.to);
    }
}

fn is_space(byte: u8) -> bool
    ensures { result ≡ is_space byte }
{
    byte == b' '
}

/// How many bytes stand before the first space.
fn first_len(text: &[u8]) -> usize
    ensures front { result ≡ position_or_len is_space text.now }
    ensures within { result ≤ length text.now }
{
    text.iter().take_while(|byte| !is_space(**byte)).count()
}

/// What stands before the first space, and what stands after it.
fn cut(text: &[u8]) -> (&[u8], &[u8])
    ensures first { result.0.now ≡ before_first is_space text.now }
    ensures others { result.1.now ≡ after_first is_space text.now }
{
    let (first, rest) = text.split_at(first_len(text));
    match rest {
        [] => (first, rest),
        [_, others @ ..] => (first, others),
    }
}

/// A field of a text that is cut at each space, counted from 0; empty where there is none.
pub(crate) fn field(text: &[u8], place: usize) -> &[u8]
    ensures { result.now ≡ field text.now place }
{
    let mut rest = text;
    for _ in 0..place {
        let (_, others) = cut(rest);
        rest = others;
    }
    let (first, _) = cut(rest);
    first
}

/// Whether that field is this word.
pub fn is_field(text: &[u8], place: usize, word: &[u8]) -> bool
    ensures { result ≡ is_field text.now place word.now }
{
    field(text, place) == word
}

/// Whether the second field is a state.
fn is_state(text: &[u8]) -> bool
    ensures { result ≡ is_state text.now }
{
    is_field(text, 1, b"hard") || is_field(text, 1, b"soft")
}

/// Whether a line without its end tells of a recursion.
pub(crate) fn is_recursion(text: &[u8]) -> bool
    ensures { result ≡ is_recursion text.now }
{
    is_field(text, 0, b"recursion") && is_field(text, 2, b"at")
}

/// Whether a line without its end tells of an inversion.
pub(crate) fn is_inversion(text: &[u8]) -> bool
    ensures { result ≡ is_inversion text.now }
{
    is_field(text, 0, b"inversion") && is_field(text, 2, b"->") && is_field(text, 4, b"at")
}

/// Whether a line without its end tells of a conflict.
pub(crate) fn is_conflict(text: &[u8]) -> bool
    ensures { result ≡ is_conflict text.now }
{
    is_field(text, 0, b"conflict") && is_state(text) && is_field(text, 4, b"in")
}

/// Whether a line without its end tells of a forbidden walk.
pub(crate) fn is_forbidden(text: &[u8]) -> bool
    ensures { result ≡ is_forbidden text.now }
{
    is_field(text, 0, b"forbidden")
        && is_state(text)
        && is_field(text, 4, b"in")
        && is_field(text, 6, b"->")
        && is_field(text, 9, b"on")
}

impl<'a> Said<'a> {
    ghost use Rattle.std.specs.Prelude.{◌≡◌};
    ghost use Rattle.ld_baseline.specs.Said.{plain_said};

    /// What is said by these parts.
    fn of(kind: &'a [u8], state: &'a [u8], from: &'a [u8], to: &'a [u8]) -> Said<'a>
        ensures { plain_said result ≡
            record { kind = kind.entry.now; state = state.entry.now; from = from.entry.now; to = to.entry.now } }
    {
        Said {
            kind,
            state,
            from,
            to,
        }
    }
}

/// What a line without its end says of a violation; `None` where it says nothing.
pub fn said_by(text: &[u8]) -> Option<Said<'_>>
    ensures { option_map plain_said result ≡ said_by text.now }
{
    if is_recursion(text) {
        Some(Said::of(field(text, 0), &[], field(text, 1), &[]))
    } else if is_inversion(text) {
        Some(Said::of(field(text, 0), &[], field(text, 1), field(text, 3)))
    } else if is_conflict(text) {
        Some(Said::of(field(text, 0), field(text, 1), field(text, 2), &[]))
    } else if is_forbidden(text) {
        Some(Said::of(
            field(text, 0),
            field(text, 1),
            field(text, 2),
            field(text, 7),
        ))
    } else {
        None
    }
}

fn contains_star(name: &[u8]) -> bool
    ensures { result ≡ list_any is_star name.now }
{
    name.iter().any(|byte| is_star(*byte))
}

/// Whether a `*` stands in a class.
pub(crate) fn has_star(said: Said<'_>) -> bool
    ensures { result ≡ has_star (plain_said said.entry) }
{
    contains_star(said.from) || contains_star(said.to)
}

/// Whether a known line matches what is said: its kind and state are the same, and its classes match.
pub(crate) fn matches(known: Said<'_>, said: Said<'_>) -> bool
    ensures { result ≡ matches (plain_said known.entry) (plain_said said.entry) }
{
    known.kind == said.kind
        && known.state == said.state
        && is_match(known.from, said.from)
        && is_match(known.to, said.to)
}

/// Whether one of several known lines matches what is said.
pub(crate) fn is_matched(patterns: &[Said<'_>], said: Said<'_>) -> bool
    ensures { result ≡ list_any (λ pattern. matches (plain_said pattern) (plain_said said.entry)) patterns.now }
{
    patterns.iter().any(|pattern| matches(*pattern, said))
}

/// Whether a known line matches one of what is said.
pub(crate) fn matches_any(known: Said<'_>, all: &[Said<'_>]) -> bool
    ensures { result ≡ list_any (λ said. matches (plain_said known.entry) (plain_said said)) all.now }
{
    all.iter().any(|said| matches(known, *said))
}
