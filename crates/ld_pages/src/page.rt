//! What stands at a cursor: the head of a page, or an entry.
ghost use Rattle.std.specs.Prelude.{ℕ, ◌≡◌, ◌+◌, ◌<◌, ◌≤◌, ◌^◌, true, length};
ghost use Rattle.ld_pages.specs.Layouts.{is_layout};
ghost use Rattle.ld_pages.specs.Pages.{GoesOn, IsWithin, entry_step, fault_step, head_step, is_commit, page_step, said_by, sized_at, step_at};

use crate::cursor::{Cursor, Event, Fault, Item, Lost, Step, Wrong};
use crate::entries::entry_at;
use crate::entry::Entry;
use crate::layout::Layout;
use crate::words::{long_at, word_at};

/// The bits of a commit below this one tell how many bytes of data there are, the others are flags.
const FLAGS: u64 = 1 << 30;

fn fault(offset: usize, wrong: Wrong) -> Step
    ensures { result ≡ fault_step offset wrong }
{
    Step::Wrong(Fault { offset, wrong })
}

/// What an entry says.
fn said_by(c: Cursor, e: Entry) -> Step
    requires within { c.position ≤ c.end }
    requires small { c.end < 2 ^ 63 }
    requires delta { e.delta < 2 ^ 27 }

    ensures step { result ≡ said_by c e }
    ensures advances { (len : ℕ) → IsWithin len c → c.position < c.end → GoesOn len c result }
{
    if e.is_padding() {
        return Step::Goes(Cursor {
            position: c.end,
            ..c
        });
    }
    let room = c.end - c.position;
    if room < e.least_span() || room < e.span() {
        return fault(c.position, Wrong::Cut);
    }
    if e.is_malformed() {
        return fault(c.position, Wrong::Length);
    }
    let Some(time) = e.time_after(c.time) else {
        return fault(c.position, Wrong::Late);
    };
    if time < c.time {
        return fault(c.position, Wrong::Back);
    }
    let behind = Cursor {
        position: c.position + e.span(),
        time,
        ..c
    };
    if e.is_event() {
        let at = c.position + e.data_offset();
        let size = e.data_size();
        Step::Gives(Item::Event(Event { at, size, time }), behind)
    } else {
        Step::Goes(behind)
    }
}

/// What the entry at a cursor says.
fn entry_step(bytes: &[u8], c: Cursor) -> Step
    requires within { IsWithin (length bytes.now) c }
    requires entry { c.position < c.end }

    ensures step { result ≡ entry_step bytes.now c }
    ensures advances { GoesOn (length bytes.now) c result }
{
    if c.end - c.position < 4 {
        fault(c.position, Wrong::Cut)
    } else {
        said_by(c, entry_at(bytes, c.position))
    }
}

/// A number of as many bytes as a `long` of the kernel has.
fn sized_at(layout: &Layout, bytes: &[u8], position: usize) -> u64
    requires room { position + layout.now.word ≤ length bytes.now }
    requires word { is_layout layout.now ≡ true }

    ensures { result ≡ sized_at layout.now bytes.now position }
{
    if layout.word == 8 {
        long_at(bytes, position)
    } else {
        u64::from(word_at(bytes, position))
    }
}

/// Whether a commit has flags that a kernel writes, and the page room for the data.
fn is_commit(layout: &Layout, commit: u64) -> bool
    requires { is_layout layout.now ≡ true }

    ensures { result ≡ is_commit layout.now commit }
{
    let behind = if commit / FLAGS == 3 { layout.word } else { 0 };
    commit / FLAGS < 4
        && commit / FLAGS != 1
        && layout.data + (commit % FLAGS) as usize + behind <= layout.size
}

/// What the head of the page says that begins at a cursor's end.
fn head_step(layout: &Layout, bytes: &[u8], c: Cursor) -> Step
    requires layout { is_layout layout.now ≡ true }
    requires whole { c.next + layout.now.size ≤ length bytes.now }
    requires behind { c.position ≤ c.next }

    ensures step { result ≡ head_step layout.now bytes.now c }
    ensures advances { GoesOn (length bytes.now) c result }
{
    let commit = sized_at(layout, bytes, c.next + layout.commit);
    if !is_commit(layout, commit) {
        return fault(c.next, Wrong::Commit);
    }
    let time = long_at(bytes, c.next + layout.stamp);
    if time < c.time {
        return fault(c.next, Wrong::Back);
    }
    let position = c.next + layout.data;
    let end = position + (commit % FLAGS) as usize;
    let begun = Cursor {
        next: c.next + layout.size,
        end,
        position,
        time,
    };
    match commit / FLAGS {
        0 => Step::Goes(begun),
        3 => {
            let count = Some(sized_at(layout, bytes, end));
            Step::Gives(Item::Lost(Lost { time, count }), begun)
        }
        _ => Step::Gives(Item::Lost(Lost { time, count: None }), begun),
    }
}

/// What the next page says.
fn page_step(layout: &Layout, bytes: &[u8], c: Cursor) -> Step
    requires layout { is_layout layout.now ≡ true }
    requires within { IsWithin (length bytes.now) c }

    ensures step { result ≡ page_step layout.now bytes.now c }
    ensures advances { GoesOn (length bytes.now) c result }
{
    if bytes.len() == c.next {
        Step::Ended
    } else if bytes.len() - c.next < layout.size {
        fault(c.next, Wrong::Short)
    } else {
        head_step(layout, bytes, c)
    }
}

/// What stands at a cursor.
pub(crate) fn step_at(layout: &Layout, bytes: &[u8], c: Cursor) -> Step
    requires layout { is_layout layout.now ≡ true }
    requires within { IsWithin (length bytes.now) c }

    ensures step { result ≡ step_at layout.now bytes.now c }
    ensures advances { GoesOn (length bytes.now) c result }
{
    if c.position == c.end {
        page_step(layout, bytes, c)
    } else {
        entry_step(bytes, c)
    }
}
