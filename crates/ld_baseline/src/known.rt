//! What the lines of a known text say, and which of them shouldn't stand there.
ghost use Rattle.std.specs.Prelude.{◌≡◌, ◌≤◌, length, IfOk};
ghost use Rattle.std.specs.List.{prefix_len};
ghost use Rattle.ld_trace.specs.Lines.{is_blank};
ghost use Rattle.ld_baseline.specs.Said.{PlainSaid, plain_said};
ghost use Rattle.ld_baseline.specs.Known.{has_said, is_among, is_comment, is_last, is_last_of_new, is_summary_or_refused, may_stand, unknown_line};

use crate::said::{Said, has_star, is_field, is_matched, said_by};
use indexmap::IndexSet;
use ld_trace::{next_line, text};
use std::alloc::{AllocError, Global};
use std::marker::Model;

/// Whether a line of a report, without its end, tells of no violation and isn't the last one.
pub fn is_summary_or_refused(text: &[u8]) -> bool
    ensures { result ≡ is_summary_or_refused text.now }
{
    is_field(text, 0, b"traces") || is_field(text, 0, b"refused")
}

/// Whether a line without its end is the last one of a report.
pub fn is_last(text: &[u8]) -> bool
    ensures { result ≡ is_last text.now }
{
    is_field(text, 0, b"clean") || is_field(text, 0, b"violations")
}

/// Whether a line without its end is the last one of a report of what is new.
fn is_last_of_new(text: &[u8]) -> bool
    ensures { result ≡ is_last_of_new text.now }
{
    is_field(text, 0, b"new") || is_field(text, 0, b"nothing")
}

fn is_blank(byte: u8) -> bool
    ensures { result ≡ is_blank byte }
{
    byte == b' ' || byte == b'\t'
}

/// How many blanks stand at the front.
fn blank_len(text: &[u8]) -> usize
    ensures front { result ≡ prefix_len is_blank text.now }
    ensures within { result ≤ length text.now }
{
    text.iter().take_while(|byte| is_blank(**byte)).count()
}

/// Whether a line without its end says nothing: it has no byte but blanks, or is a comment.
pub fn is_comment(text: &[u8]) -> bool
    ensures { result ≡ is_comment text.now }
{
    let (_, rest) = text.split_at(blank_len(text));
    matches!(rest, [] | [b'#', ..])
}

/// Whether a line may stand in a known text.
fn may_stand(line: &[u8]) -> bool
    ensures { result ≡ may_stand line.now }
{
    let text = text(line);
    is_comment(text)
        || said_by(text).is_some()
        || is_summary_or_refused(text)
        || is_last(text)
        || is_last_of_new(text)
}

/// The number, from 1, of the first line of a known text that says something and is no line of a
/// report.
pub fn unknown_line(known: &[u8]) -> Option<u64>
    ensures { result ≡ unknown_line known.now }
{
    let mut rest = known;
    let mut count = 0;
    while let Some((line, after)) = next_line(rest) {
        count += 1;
        if !may_stand(line) {
            return Some(count);
        }
        rest = after;
    }
    None
}

/// What the lines of a known text say.
#[derive(Drop)]
pub struct Known<'a> {
    /// What those without a `*` in their classes say.
    plain: IndexSet<Said<'a>>,
    /// What the others say.
    patterns: Vec<Said<'a>>,
}

impl<'a> Model for Known<'a> {
    ghost use Rattle.std.specs.Prelude.{map};
    ghost use Rattle.ld_baseline.specs.Known.{PlainKnown};
    ghost use Rattle.ld_baseline.specs.Said.{plain_said};

    ghost Value = { PlainKnown };

    ghost view = { λ known. record {
      plain = map plain_said known.plain.keys;
      patterns = map plain_said known.patterns.items;
    } };
}

impl<'a> Known<'a> {
    /// What the lines of this text say.
    ///
    /// # Errors
    ///
    /// Where the memory for it was refused.
    pub fn of(alloc: Global, known: &'a [u8]) -> Result<Known<'a>, AllocError>
        ensures { IfOk result (λ all. (said : PlainSaid) →
            is_among all said ≡ has_said known.entry.now said) }
    {
        let mut plain = IndexSet::new(alloc);
        let mut patterns = Vec::new(alloc);
        let mut rest = known;
        while let Some((line, after)) = next_line(rest) {
            if let Some(one) = said_by(text(line)) {
                if has_star(one) {
                    patterns.push(one)?;
                } else {
                    plain.insert(one)?;
                }
            }
            rest = after;
        }
        Ok(Known { plain, patterns })
    }

    /// Whether one of them matches what is said.
    pub fn has(&self, said: Said<'_>) -> bool
        ensures { result ≡ is_among self.now (plain_said said.entry) }
    {
        self.plain.contains(&said) || is_matched(&self.patterns, said)
    }
}
