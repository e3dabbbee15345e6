//! What a recorder of programs says of the classes of a stream, in comments at its end.

use crate::map::At;
use crate::words::cut;
use ld_trace::{next_line, text};

/// What the locks of a class are. Texts stand as the recorder wrote them ([`crate::write_plain`]).
#[derive(Clone, Copy, Debug, PartialEq, Eq)]
pub enum Origin<'a> {
    /// This variable of this file.
    Variable { name: &'a [u8], file: &'a [u8] },
    /// They are initialised here.
    Initialised(At<'a>),
    /// No call initialises them, and they are first locked here.
    FirstLocked(At<'a>),
}

/// The class of the first line with what its locks are, where the line is such a comment; and what follows the line.
/// `None` where there is no byte.
pub(crate) fn next_class(bytes: &[u8]) -> Option<(Option<(&[u8], Origin<'_>)>, &[u8])> {
    let (line, rest) = next_line(bytes)?;
    Some((class_of(text(line)), rest))
}

/// What a line without its end says of a class: `# class NAME HOW FILE+OFFSET ..`.
fn class_of(line: &[u8]) -> Option<(&[u8], Origin<'_>)> {
    let (class, words) = cut(line.strip_prefix(b"# class ")?);
    let (how, words) = cut(words);
    let (place, words) = cut(words);
    if class.is_empty() || place.is_empty() {
        return None;
    }
    Some((class, origin_of(class, how, place, words)?))
}

/// What a class is by these words: how it came, FILE+OFFSET, and all that follows.
fn origin_of<'a>(
    class: &'a [u8],
    how: &[u8],
    place: &'a [u8],
    words: &'a [u8],
) -> Option<Origin<'a>> {
    match how {
        b"init" => Some(Origin::Initialised(at_of(place, words))),
        b"first" => Some(Origin::FirstLocked(at_of(place, words))),
        b"static" => {
            let (variable, _) = cut(words);
            let name = if variable.is_empty() { class } else { variable };
            let file = before_offset(place);
            Some(Origin::Variable { name, file })
        }
        _ => None,
    }
}

/// The place that a function and a source line say behind FILE+OFFSET, or else that one.
fn at_of<'a>(place: &'a [u8], words: &'a [u8]) -> At<'a> {
    let (function, words) = cut(words);
    let (source, others) = cut(words);
    let is_told = !source.is_empty() && others.is_empty();
    if is_told && !has_offset(function) && !has_offset(source) {
        return At::Place { function, source };
    }
    let (function, source) = (b"?".as_slice(), place);
    At::Place { function, source }
}

/// Whether a word ends in an offset, `+0x` and digits.
fn has_offset(word: &[u8]) -> bool {
    before_offset(word).len() < word.len()
}

/// What stands before the offset at the end of a word: all where there is none.
fn before_offset(word: &[u8]) -> &[u8] {
    match word.iter().rposition(|byte| *byte == b'+') {
        Some(plus) => {
            let offset = word.get(plus..).unwrap_or(&[]);
            if offset.starts_with(b"+0x") {
                word.get(..plus).unwrap_or(word)
            } else {
                word
            }
        }
        None => word,
    }
}
