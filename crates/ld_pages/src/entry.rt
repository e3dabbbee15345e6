//! An entry of a page: the numbers that it begins with, and what they say.
ghost use Rattle.std.specs.Prelude.{◌≡◌, ◌<◌, ◌^◌, false};

/// The numbers that an entry begins with.
#[derive(Clone, Copy)]
pub(crate) struct Entry {
    /// What it is, or how many words of data it has.
    pub kind: u32,
    /// The time since the entry before it, or the lower bits of a time.
    pub delta: u32,
    /// The word behind the first one, which may be data; 0 where the bytes end before.
    pub second: u32,
}

/// An event whose length is in the second word.
const LONG: u32 = 0;

/// Padding up to the end of the data, or an event that was discarded.
const PADDING: u32 = 29;

/// The entry adds to the time.
const EXTEND: u32 = 30;

/// The entry is a time.
const STAMP: u32 = 31;

/// A stamp has the bits below this one of a time: the time before it has the others.
const STAMPED: u64 = 1 << 59;

impl Entry {
    ghost use Rattle.ld_pages.specs.Entries.{data_offset, data_size, fitting, has_length, is_event, is_malformed, is_padding, least_span, span, stamped_time, time_after, wide};

    /// Whether nothing but padding follows.
    pub fn is_padding(self) -> bool
        ensures { result ≡ is_padding self }
    {
        self.kind == PADDING && self.delta == 0
    }

    /// Whether the second word is a length.
    fn has_length(self) -> bool
        ensures { result ≡ has_length self }
    {
        self.kind == LONG || self.kind == PADDING
    }

    /// Whether the length in its second word is none.
    pub fn is_malformed(self) -> bool
        ensures { result ≡ is_malformed self }
    {
        self.has_length() && (self.second < 4 || self.second % 4 != 0)
    }

    /// Whether it is an event.
    pub fn is_event(self) -> bool
        ensures { result ≡ is_event self }
    {
        self.kind < PADDING
    }

    /// How many bytes its words have at least.
    pub fn least_span(self) -> usize
        ensures { result ≡ least_span self }
    {
        if self.kind == LONG || self.kind >= PADDING {
            8
        } else {
            4
        }
    }

    /// How many bytes it takes.
    pub fn span(self) -> usize
        ensures { result ≡ span self }
    {
        if self.has_length() {
            4 + self.second as usize
        } else if self.kind < PADDING {
            4 + 4 * self.kind as usize
        } else {
            8
        }
    }

    /// How many bytes from its begin the data of an event stand.
    pub fn data_offset(self) -> usize
        ensures { result ≡ data_offset self }
    {
        if self.kind == LONG { 8 } else { 4 }
    }

    /// How many bytes of data an event has.
    pub fn data_size(self) -> usize
        requires { is_malformed self ≡ false }

        ensures { result ≡ data_size self }
    {
        if self.kind == LONG {
            self.second as usize - 4
        } else {
            4 * self.kind as usize
        }
    }

    /// The 59 bits of its two words.
    fn wide(self) -> u64
        ensures { result ≡ wide self }
    {
        u64::from(self.delta) + (1 << 27) * u64::from(self.second)
    }

    /// The time that it is, if it is one.
    fn stamped_time(self, before: u64) -> Option<u64>
        requires { self.delta < 2 ^ 27 }

        ensures { result ≡ fitting (stamped_time self before) }
    {
        let wide = self.wide();
        let upper = before - before % STAMPED;
        if upper == 0 || before <= upper + wide {
            Some(upper + wide)
        } else {
            (upper + wide).checked_add(STAMPED)
        }
    }

    /// The time after it; `None` where 64 bits don't hold it.
    pub fn time_after(self, before: u64) -> Option<u64>
        requires { self.delta < 2 ^ 27 }

        ensures { result ≡ fitting (time_after self before) }
    {
        match self.kind {
            STAMP => self.stamped_time(before),
            EXTEND => before.checked_add(self.wide()),
            _ => before.checked_add(u64::from(self.delta)),
        }
    }
}
