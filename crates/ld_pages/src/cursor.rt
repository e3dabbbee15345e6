//! What the pages of a processor give, and how far they were read.
ghost use Rattle.std.specs.Prelude.{◌≡◌};
ghost use Rattle.ld_pages.specs.Pages.{time_of};

/// An event.
#[derive(Clone, Copy, Debug, PartialEq, Eq)]
pub struct Event {
    /// Offset of its data in the file.
    pub at: usize,
    /// How many bytes of data it has.
    pub size: usize,
    /// Its time, as the kernel's clock counts.
    pub time: u64,
}

/// Events that the kernel lost, directly before what follows.
#[derive(Clone, Copy, Debug, PartialEq, Eq)]
pub struct Lost {
    /// The time of the page before whose events they were lost.
    pub time: u64,
    /// How many they were, where the kernel tells.
    pub count: Option<u64>,
}

/// What the pages of a processor give, one after the other.
#[derive(Clone, Copy, Debug, PartialEq, Eq)]
pub enum Item {
    Event(Event),
    Lost(Lost),
}

impl Item {
    /// Its time, as the kernel's clock counts.
    pub fn time(&self) -> u64
        ensures { result ≡ time_of self.now }
    {
        match self {
            Item::Event(event) => event.time,
            Item::Lost(lost) => lost.time,
        }
    }
}

/// What is wrong with the bytes of a page.
#[derive(Clone, Copy, Debug, PartialEq, Eq)]
pub enum Wrong {
    /// The file ends within a page.
    Short,
    /// The page has more data than fits, or flags that no kernel writes.
    Commit,
    /// An entry goes on behind the end of the page's data.
    Cut,
    /// The length that an entry tells is none: below 4, or no multiple of 4.
    Length,
    /// A time that 64 bits don't hold.
    Late,
    /// A time before the one that was read last.
    Back,
}

/// A fault in the bytes of a processor.
#[derive(Clone, Copy, Debug, PartialEq, Eq)]
pub struct Fault {
    /// Offset in the file of the page or the entry that can't be read.
    pub offset: usize,
    pub wrong: Wrong,
}

/// How far the pages were read.
#[derive(Clone, Copy)]
pub(crate) struct Cursor {
    /// Offset in the file of the next page.
    pub next: usize,
    /// Where the data of the present page end.
    pub end: usize,
    /// Where the next entry of the present page begins.
    pub position: usize,
    /// The time so far.
    pub time: u64,
}

/// What stands at a cursor.
pub(crate) enum Step {
    /// Nothing: all was read.
    Ended,
    /// What can't be read.
    Wrong(Fault),
    /// What says nothing itself, and where it goes on.
    Goes(Cursor),
    /// An item, and where it goes on.
    Gives(Item, Cursor),
}
