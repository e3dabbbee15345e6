//! What is told of one trace, where memory is refused and where there is much of it.

use ld_facts::{EdgeFact, Facts, Outcome, facts};
use ld_trace::Source;
use std::alloc::Global;
use std::io::Write;
use std::process::Abort;
use std::test::Fail;

fn source(bytes: &[u8]) -> Source<'_> {
    Source {
        number: 0,
        name: b"m",
        first_line: 2,
        bytes,
    }
}

/// What is told of a trace of these lines, the first of which is line 2. Where memory is refused it is
/// asked for again.
fn told<'a, R: AllocGlobal + Abort>(rt: &R, bytes: &'a [u8]) -> Facts<'a> {
    let source = source(bytes);
    assert!(rt; source.fits());
    let mut answer = facts(rt.alloc(), source);
    if answer.is_err() {
        drop(answer);
        answer = facts(rt.alloc(), source);
    }
    answer.expect(rt, "facts, once memory is there")
}

pub(crate) fn edge(from: u32, to: u32, line: u64) -> EdgeFact {
    EdgeFact { from, to, line }
}

#[test]
fn a_lock_released_out_of_order_is_no_source(rt: HostRuntime) {
    let facts = told(&rt, b"acquire t A\nacquire t B\nrelease t A\nacquire t C\n");
    assert_eq!(rt; facts.outcome(), Outcome::Read { events: 4 });
    assert_eq!(rt; facts.classes().len(), 3);
    assert_eq!(rt; facts.edges().len(), 2);
    assert!(rt; facts.edges().contains(&edge(0, 1, 3)));
    assert!(rt; facts.edges().contains(&edge(1, 2, 5)));
    drop(facts);
}

/// A trace in which a lock is taken in each kind of frame, and one is released below another.
const NESTED: &[u8] = b"acquire t A\nacquire t B\nrelease t A\nenter t soft\nacquire t S\n\
    enter t hard\nacquire t H\nrelease t H\nexit t hard\nrelease t S\nexit t soft\n";

#[test]
fn a_refused_growth_is_told(rt: HostRuntime) {
    let facts = told(&rt, NESTED);
    assert_eq!(rt; facts.outcome(), Outcome::Read { events: 11 });
    assert_eq!(rt; facts.classes().len(), 4);
    assert_eq!(rt; facts.edges().len(), 1);
    assert!(rt; facts.edges().contains(&edge(0, 1, 3)));
    assert_eq!(rt; facts.usage().len(), 8);
    drop(facts);
}

// Only want of memory may keep a trace from being read, and here there is memory.
#[test]
fn a_trace_of_more_than_a_million_bytes_is_read(rt: HostRuntime) -> Result<(), Fail> {
    let text = b"acquire t A\nrelease t A\n".repeat(rt.alloc(), 42_000)?;
    assert!(rt; text.len() > 1_000_000);
    let facts = told(&rt, &text);
    assert_eq!(rt; facts.outcome(), Outcome::Read { events: 84_000 });
    drop(facts);
    Ok(())
}

/// The lines of a task that takes locks of these classes in turn and holds 94 of them: from then on it lets
/// the oldest one go each time before it takes the next.
fn hand_over_hand(alloc: Global, classes: &[usize]) -> Result<Vec<u8>, Fail> {
    let mut text = Vec::new(alloc);
    for (place, class) in classes.iter().enumerate() {
        if place >= 94 {
            if let Some(oldest) = classes.get(place - 94) {
                writeln!(text, "release t c{oldest}")?;
            }
        }
        writeln!(text, "acquire t c{class}")?;
    }
    Ok(text)
}

// A release takes the chains of 93 locks away, which the next acquisition asks for, so there would be 273,000
// of them: more than are kept.
#[test]
fn a_trace_of_more_chains_than_are_kept_is_read(rt: HostRuntime) -> Result<(), Fail> {
    let classes: Vec<usize> = (0..3_000).collect(rt.alloc())?;
    let text = hand_over_hand(rt.alloc(), &classes)?;
    let facts = told(&rt, &text);
    assert_eq!(rt; facts.outcome(), Outcome::Read { events: 5_906 });
    assert_eq!(rt; facts.edges().len(), 274_629);
    drop(facts);
    Ok(())
}
