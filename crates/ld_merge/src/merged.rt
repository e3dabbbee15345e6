//! The merge.
ghost use Rattle.std.specs.Prelude.{OnOk};
ghost use Rattle.ld_merge.specs.Merge.{GrowsByMerge};

use crate::entry::{Entry, MergeFault, Taker};
use crate::head::{events_at, head_of, heads_of, put};
use crate::least::least;
use ld_pages::Events;
use std::alloc::Global;

/// Hands the items of all processors over, as the kernel merges them: by time, and of equal times that
/// of the lowest processor first. Answers the last one. It keeps one item for each processor.
///
/// # Errors
///
/// The fault of the first page that can't be read; `Refused` where the taker takes no more, `Memory`
/// where a growth was refused. What was handed over until then is a first part of the merge.
pub fn merge<T: Taker>(
    alloc: Global,
    sources: &[Events<'_>],
    taker: &mut T,
) -> Result<Option<Entry>, MergeFault>
    ensures { OnOk result (GrowsByMerge sources.now (T.taken taker.old) (T.taken taker.new)) }
{
    let mut heads = heads_of(alloc, sources)?;
    let mut last = None;
    'entries: for _ in 0..u64::MAX {
        match least(&heads) {
            None => return Ok(last),
            Some(entry) => {
                let events = events_at(&heads, entry.processor);
                let head = head_of(events, entry.processor)?;
                put(&mut heads, entry.processor, head);
                taker.take(entry)?;
                last = Some(entry);
            }
        }
    }
    Err(MergeFault::Many)
}
