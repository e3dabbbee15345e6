//! Words that all formats use, and what rows are found by their places.

use crate::text::Text;
use ld_escape::Form;
use ld_rows::{Class, Dependency, End, Group, Kind, Line, Rows, Violation};
use ld_trace::State;
use std::alloc::AllocError;

/// The kinds, in the order of a report.
pub(crate) const KINDS: [Kind; 4] = [
    Kind::Recursion,
    Kind::Inversion,
    Kind::Conflict,
    Kind::Forbidden,
];

/// The word of a kind in a report.
pub(crate) fn kind_word(kind: Kind) -> &'static str {
    match kind {
        Kind::Recursion => "recursion",
        Kind::Inversion => "inversion",
        Kind::Conflict => "conflict",
        Kind::Forbidden => "forbidden",
    }
}

/// A kind's place in `KINDS`.
pub(crate) fn kind_place(kind: Kind) -> u64 {
    match kind {
        Kind::Recursion => 0,
        Kind::Inversion => 1,
        Kind::Conflict => 2,
        Kind::Forbidden => 3,
    }
}

/// What a kind is, in a few words.
pub(crate) fn kind_title(kind: Kind) -> &'static str {
    match kind {
        Kind::Recursion => "A class is acquired while a lock of it is held",
        Kind::Inversion => "Locks are acquired in an order that is part of a cycle",
        Kind::Conflict => "A class is acquired in a handler, and held where it can interrupt",
        Kind::Forbidden => "A class of handlers leads to one that is held where they can interrupt",
    }
}

/// What a violation of a kind means, for readers to whom such reports are new.
pub(crate) fn kind_meaning(kind: Kind) -> &'static str {
    match kind {
        Kind::Recursion => {
            "A task acquires a lock of this class while it holds one. If both are one lock, or if two tasks take two such locks in opposite order, they wait forever."
        }
        Kind::Inversion => {
            "Each step acquires a lock while another one is held, and the steps form a cycle. If tasks take them at once, each can wait forever for a lock that the next one holds."
        }
        Kind::Conflict => {
            "An interrupt handler acquires a lock of this class, and elsewhere one is held while such a handler can interrupt. If it interrupts the task that holds the lock, it waits forever for that task."
        }
        Kind::Forbidden => {
            "Interrupt handlers acquire the first class, and the last one is held while they can interrupt. If a task holds the first and waits along the path for the last, a handler that interrupts its holder waits forever."
        }
    }
}

/// The word of a state.
pub(crate) fn state_word(state: State) -> &'static str {
    match state {
        State::Hard => "hard",
        State::Soft => "soft",
    }
}

/// What a violation is, whatever its occurrences and its path are: `inversion A -> B`, `conflict hard A`.
pub(crate) fn write_title(
    text: &mut Text,
    form: Form,
    violation: &Violation<'_>,
) -> Result<(), AllocError> {
    text.put(kind_word(violation.kind))?;
    if let Some(state) = violation.state {
        text.put(" ")?;
        text.put(state_word(state))?;
    }
    write_ends(text, form, violation)
}

/// The classes that a violation's line names: of a recursion and of a conflict one, else two.
fn write_ends(text: &mut Text, form: Form, violation: &Violation<'_>) -> Result<(), AllocError> {
    if let Some(class) = violation.classes.first() {
        text.put(" ")?;
        text.class(form, *class)?;
    }
    if let Some(class) = second(violation) {
        text.put(" -> ")?;
        text.class(form, class)?;
    }
    Ok(())
}

/// The second class that a violation's line names, if it names two.
fn second<'a>(violation: &Violation<'a>) -> Option<Class<'a>> {
    let class = match violation.kind {
        Kind::Recursion | Kind::Conflict => None,
        Kind::Inversion => violation.classes.get(1),
        Kind::Forbidden => violation.classes.last(),
    };
    class.copied()
}

/// What isn't told of a report, and how many of it there are.
pub(crate) fn untold(rows: &Rows<'_>) -> [(&'static str, u64); 3] {
    let more = rows.count.saturating_sub(rows.violations.len() as u64);
    let refused = rows
        .totals
        .refused
        .saturating_sub(rows.refused.len() as u64);
    [
        ("known violations left out", rows.known),
        ("violations not shown", more),
        ("refused traces not shown", refused),
    ]
}

/// Writes what isn't told of a report and is some, each behind and before these words: `violations not shown: 17`.
pub(crate) fn write_untold(
    text: &mut Text,
    rows: &Rows<'_>,
    before: &'static str,
    behind: &'static str,
) -> Result<(), AllocError> {
    for (what, count) in untold(rows) {
        if count > 0 {
            text.put(before)?;
            text.put(what)?;
            text.put(": ")?;
            text.number(count)?;
            text.put(behind)?;
        }
    }
    Ok(())
}

/// The dependency of a place.
pub(crate) fn dependency_at<'r, 'a>(
    rows: &'r Rows<'a>,
    place: usize,
) -> Option<&'r Dependency<'a>> {
    rows.dependencies.get(place)
}

/// The end of a place, if there is one.
pub(crate) fn end_at<'r, 'a>(rows: &'r Rows<'a>, place: Option<usize>) -> Option<&'r End<'a>> {
    match place {
        Some(place) => rows.ends.get(place),
        None => None,
    }
}

/// The violation that a group is named by: its first one.
pub(crate) fn first_of<'r, 'a>(rows: &'r Rows<'a>, group: &Group) -> Option<&'r Violation<'a>> {
    match group.violations.first() {
        Some(place) => rows.violations.get(*place),
        None => None,
    }
}

/// The line that a violation points at.
pub(crate) fn line_of<'r, 'a>(
    rows: &'r Rows<'a>,
    violation: &Violation<'_>,
) -> Option<&'r Line<'a>> {
    if let Some(end) = end_at(rows, violation.exposed) {
        return Some(&end.seen.line);
    }
    match violation.dependencies.first() {
        Some(place) => match dependency_at(rows, *place) {
            Some(dependency) => Some(&dependency.seen.line),
            None => None,
        },
        None => None,
    }
}
