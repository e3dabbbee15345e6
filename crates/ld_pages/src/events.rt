//! The events of a processor, one after the other.
ghost use Rattle.std.specs.Prelude.{◌≡◌, true, length};
ghost use Rattle.ld_pages.specs.Layouts.{is_layout};
ghost use Rattle.ld_pages.specs.Pages.{IsWithin};

use crate::cursor::{Cursor, Fault, Item, Step};
use crate::layout::Layout;
use crate::page::step_at;

/// Before the first page.
const START: Cursor = Cursor {
    next: 0,
    end: 0,
    position: 0,
    time: 0,
};

/// The pages of a processor, which stand one behind the other, and how far they were read.
#[derive(Clone, Copy)]
pub struct Events<'a> {
    pub(crate) layout: Layout,
    pub(crate) bytes: &'a [u8],
    pub(crate) cursor: Cursor,
    ghost possible: { is_layout layout ≡ true },
    ghost within: { IsWithin (length bytes.now) cursor },
}

impl<'a> Events<'a> {
    ghost use Rattle.std.specs.Prelude.{◌↔◌, List, [], Some, Option, MatchOption, MatchResult};
    ghost use Rattle.ld_pages.specs.declared.cursor.Fault.{Fault};
    ghost use Rattle.ld_pages.specs.declared.cursor.Item.{Item};
    ghost use Rattle.ld_pages.specs.Reads.{PagesGive};
    ghost use Rattle.ld_pages.specs.Events.{Continues, Ends, Gives};

    /// These pages, of which nothing was read yet. Takes no memory.
    pub fn new(layout: Layout, bytes: &'a [u8]) -> Events<'a>
        requires { is_layout layout ≡ true }

        ensures all { (items : List Item) (fault : Option Fault) →
            PagesGive layout bytes.entry.now items fault ↔ Gives result items fault }
        ensures bytes { result.bytes.now ≡ bytes.entry.now }
    {
        Events {
            layout,
            bytes,
            cursor: START,
        }
    }

    /// The next item; `None` where all pages were read. Takes no memory.
    ///
    /// # Errors
    ///
    /// Where the bytes that follow are those of no page that a kernel writes. The same is answered
    /// from then on.
    pub fn next(&mut self) -> Result<Option<Item>, Fault>
        ensures pages { MatchResult result
            (λ found. MatchOption found (Ends self.old self.new) (λ item. Continues self.old item self.new))
            (λ fault. Gives self.old [] (Some fault)) }
    {
        'steps: loop {
            match step_at(&self.layout, self.bytes, self.cursor) {
                Step::Ended => return Ok(None),
                Step::Wrong(fault) => return Err(fault),
                Step::Goes(cursor) => self.cursor = cursor,
                Step::Gives(item, cursor) => {
                    self.cursor = cursor;
                    return Ok(Some(item));
                }
            }
        }
    }
}
