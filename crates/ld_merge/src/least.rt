//! Which item is next.
ghost use Rattle.std.specs.Prelude.{◌≡◌, length};
ghost use Rattle.ld_merge.specs.Heads.{IsLeast, pick};

use crate::entry::Entry;
use crate::head::{Head, item_at};
use ld_pages::Item;

/// The earlier one of the least item so far and of one of a higher processor.
fn pick(best: Option<Entry>, processor: usize, item: Option<Item>) -> Option<Entry>
    ensures { result ≡ pick best processor item }
{
    match item {
        None => best,
        Some(item) => match best {
            None => Some(Entry { processor, item }),
            Some(least) => {
                if item.time() < least.item.time() {
                    Some(Entry { processor, item })
                } else {
                    Some(least)
                }
            }
        },
    }
}

/// The least of the items in front: the earliest, and of equal times that of the lowest processor.
pub(crate) fn least(heads: &Vec<Head<'_>>) -> Option<Entry>
    ensures { IsLeast heads.now.items (length heads.now.items) result }
{
    let mut best = None;
    'heads: for processor in 0..heads.len() {
        let item = item_at(heads, processor);
        best = pick(best, processor, item);
    }
    best
}
