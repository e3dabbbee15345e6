//! Plain events, which have to be read without the way round by lines and fields: a `next_event` that always
//! answered `None`, or does at some of them, would meet every contract. So it is with empty lines.

use ld_trace::{Event, Lock, behind_empty, next_event};
use std::alloc::Global;
use std::test::Fail;

fn lock<'a>(class: &'a [u8], instance: Option<&'a [u8]>) -> Lock<'a> {
    Lock { class, instance }
}

/// Whether the first line is this event, and these bytes follow it.
fn gives(bytes: &[u8], event: Event<'_>, rest: &[u8]) -> bool {
    next_event(bytes) == Some((event, rest))
}

/// Bytes `a`, so many, between two texts.
fn with_letters(alloc: Global, front: &[u8], count: usize, end: &[u8]) -> Result<Vec<u8>, Fail> {
    let mut all = front.to_vec(alloc)?;
    for _ in 0..count {
        all.push(b'a')?;
    }
    all.extend_from_slice(end)?;
    Ok(all)
}

#[test]
fn plain_events_are_read(rt: HostRuntime) {
    let task = b"t".as_slice();
    let class = lock(b"A", None);
    let one = lock(b"A", Some(b"7"));
    assert!(rt; gives(b"acquire t A\n", Event::Acquire { task, lock: class }, b""));
    assert!(rt; gives(b"acquire t A@7\n", Event::Acquire { task, lock: one }, b""));
    assert!(rt; gives(b"try t A\n", Event::Try { task, lock: class }, b""));
    assert!(rt; gives(b"try t A@7\n", Event::Try { task, lock: one }, b""));
    assert!(rt; gives(b"release t A\n", Event::Release { task, lock: class }, b""));
    assert!(rt; gives(b"release t A@7\n", Event::Release { task, lock: one }, b""));
}

#[test]
fn plain_events_before_others_are_read(rt: HostRuntime) {
    let task = b"t".as_slice();
    let rest = b"acquire t B\n# and a comment of more than thirty-two bytes\n".as_slice();
    let bytes =
        b"acquire t A\nacquire t B\n# and a comment of more than thirty-two bytes\n".as_slice();
    let event = Event::Acquire {
        task,
        lock: lock(b"A", None),
    };
    assert!(rt; gives(bytes, event, rest));
    let bytes =
        b"release t A@7\nacquire t B\n# and a comment of more than thirty-two bytes\n".as_slice();
    let event = Event::Release {
        task,
        lock: lock(b"A", Some(b"7")),
    };
    assert!(rt; gives(bytes, event, rest));
}

#[test]
fn lines_that_end_by_cr_lf_are_read(rt: HostRuntime) {
    let task = b"t".as_slice();
    let rest = b"acquire t B\r\n".as_slice();
    let class = lock(b"A", None);
    let event = Event::Acquire { task, lock: class };
    assert!(rt; gives(b"acquire t A\r\nacquire t B\r\n", event, rest));
    let one = lock(b"A", Some(b"7"));
    let event = Event::Release { task, lock: one };
    assert!(rt; gives(b"release t A@7\r\nacquire t B\r\n", event, rest));
    assert!(rt; gives(b"try t A@7\r\n", Event::Try { task, lock: one }, b""));
}

#[test]
fn empty_lines_are_passed(rt: HostRuntime) {
    let rest = b"acquire t A\n".as_slice();
    assert!(rt; behind_empty(b"\nacquire t A\n") == Some(rest));
    assert!(rt; behind_empty(b"\r\nacquire t A\n") == Some(rest));
    assert!(rt; behind_empty(b"\n") == Some(b"".as_slice()));
}

#[test]
fn each_byte_of_words_is_read(rt: HostRuntime) {
    let task = b"!\"#$%&'()*+,-./0:;<=>?@AZ[\\]^_`az{|}~".as_slice();
    let class = lock(b"!\"#$%&'()*+,-.0:;<=>?AZ[\\]^_`az{|}~", None);
    let line =
        b"try !\"#$%&'()*+,-./0:;<=>?@AZ[\\]^_`az{|}~ !\"#$%&'()*+,-.0:;<=>?AZ[\\]^_`az{|}~\n";
    assert!(rt; gives(line, Event::Try { task, lock: class }, b""));
}

#[test]
fn words_of_64_bytes_are_read(rt: HostRuntime) -> Result<(), Fail> {
    let alloc = rt.alloc();
    let word = with_letters(alloc, b"", 64, b"")?;
    let word = word.as_slice();
    let line = with_letters(alloc, b"acquire ", 64, b" A\n")?;
    let event = Event::Acquire {
        task: word,
        lock: lock(b"A", None),
    };
    assert!(rt; gives(line.as_slice(), event, b""));
    let line = with_letters(alloc, b"acquire t ", 64, b"\n")?;
    let event = Event::Acquire {
        task: b"t",
        lock: lock(word, None),
    };
    assert!(rt; gives(line.as_slice(), event, b""));
    let line = with_letters(alloc, b"acquire t A@", 64, b"\n")?;
    let event = Event::Acquire {
        task: b"t",
        lock: lock(b"A", Some(word)),
    };
    assert!(rt; gives(line.as_slice(), event, b""));
    Ok(())
}
