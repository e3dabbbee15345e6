//! Where the parts of a page stand.
ghost use Rattle.std.specs.Prelude.{◌≡◌};
ghost use Rattle.ld_pages.specs.Layouts.{is_layout};

/// Where the parts of a page stand, as the kernel's file `events/header_page` tells.
#[derive(Clone, Copy, Debug, PartialEq, Eq)]
pub struct Layout {
    /// Offset of the page's time stamp, of 8 bytes.
    pub stamp: usize,
    /// Offset of the number that tells how many bytes of data there are.
    pub commit: usize,
    /// How many bytes that number has: 8, or 4 of a kernel of 32 bits.
    pub word: usize,
    /// Offset of the data.
    pub data: usize,
    /// How many bytes a page has.
    pub size: usize,
}

/// The largest page.
pub const LARGEST_PAGE: usize = 1 << 30;

impl Layout {
    /// Whether all parts stand in the page, the data last.
    pub fn is_possible(&self) -> bool
        ensures { result ≡ is_layout self.now }
    {
        (self.word == 4 || self.word == 8)
            && self.size <= LARGEST_PAGE
            && self.data <= self.size
            && self.stamp < self.data
            && self.data - self.stamp >= 8
            && self.commit < self.data
            && self.data - self.commit >= self.word
    }
}
