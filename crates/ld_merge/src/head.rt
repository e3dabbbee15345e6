//! The pages of processors, each with its next item in front.
ghost use Rattle.std.specs.Prelude.{ℕ, ◌≡◌, ◌++◌, ◌∷◌, ◌<◌, [], IfOk, None, OnOk, get_or, length, set};
ghost use Rattle.ld_pages.specs.declared.events.Events.{Events};
ghost use Rattle.ld_merge.specs.declared.head.Head.{Head};
ghost use Rattle.ld_merge.specs.Heads.{AreHeads, IsEnd, IsOf, IsTimed};

use crate::entry::MergeFault;
use ld_pages::{Events, Item};
use std::alloc::{AllocError, Global};

/// The pages of a processor, and the item that they gave last, which isn't merged yet.
#[derive(Clone, Copy)]
pub(crate) struct Head<'a> {
    pub events: Events<'a>,
    pub item: Option<Item>,
}

/// The pages of a processor, with their next item in front.
pub(crate) fn head_of(events: Events<'_>, processor: usize) -> Result<Head<'_>, MergeFault>
    ensures left { IfOk result (λ h. IsOf events.entry h) }
    ensures timed { IfOk result (λ h.
        IsTimed events.entry.cursor.time h.item h.events.cursor.time) }
    ensures at_end { IfOk result (λ h. IsEnd h.item h.events) }
{
    let mut events = events;
    match events.next() {
        Ok(item) => Ok(Head { events, item }),
        Err(fault) => Err(MergeFault::Pages(processor, fault)),
    }
}

/// The pages of a processor of which nothing was read.
fn source_at<'a>(sources: &[Events<'a>], processor: usize) -> Events<'a>
    requires { processor < length sources.now }

    ensures { (d : Events) → result ≡ get_or sources.now processor d }
{
    sources[processor]
}

fn add<'a>(heads: &mut Vec<Head<'a>>, head: Head<'a>) -> Result<(), AllocError>
    ensures { OnOk result (heads.new.items ≡ heads.old.items ++ head.entry ∷ []) }
{
    heads.push(head)?;
    Ok(())
}

/// The pages of all processors, each with their first item in front.
pub(crate) fn heads_of<'a>(
    alloc: Global,
    sources: &[Events<'a>],
) -> Result<Vec<Head<'a>>, MergeFault>
    ensures count { IfOk result (λ heads. length heads.items ≡ length sources.now) }
    ensures each { IfOk result (λ heads. (k : ℕ) (d : Head) → k < length sources.now →
        (e : Events) → IsOf (get_or sources.now k e) (get_or heads.items k d)) }
    ensures heads { IfOk result (λ heads. AreHeads None heads.items) }
{
    let mut heads = Vec::new(alloc);
    'sources: for processor in 0..sources.len() {
        let events = source_at(sources, processor);
        let head = head_of(events, processor)?;
        add(&mut heads, head)?;
    }
    Ok(heads)
}

/// The pages of a processor.
pub(crate) fn events_at<'a>(heads: &Vec<Head<'a>>, processor: usize) -> Events<'a>
    requires { processor < length heads.now.items }

    ensures { (d : Head) → result ≡ (get_or heads.now.items processor d).events }
{
    heads[processor].events
}

/// The item in front of a processor's pages.
pub(crate) fn item_at(heads: &Vec<Head<'_>>, processor: usize) -> Option<Item>
    requires { processor < length heads.now.items }

    ensures { (d : Head) → (get_or heads.now.items processor d).item ≡ result }
{
    heads[processor].item
}

/// Puts a head in the place of another.
pub(crate) fn put<'a>(heads: &mut Vec<Head<'a>>, processor: usize, head: Head<'a>)
    requires { processor < length heads.old.items }

    ensures { heads.new.items ≡ set heads.old.items processor head.entry }
{
    heads[processor] = head;
}
