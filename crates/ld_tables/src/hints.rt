//! Hints where names stand among those that are known, chains among those that were met, and words among those with
//! numbers.
ghost use Rattle.std.specs.Prelude.{◌<◌};
ghost use Rattle.ld_tables.specs.declared.hints.TheConstants.{CHAIN_HINTS, HINTS, WORD_HINTS};

use crate::chains::Link;
use crate::masks::Word;
use ld_class::ClassName;
use std::alloc::Global;

/// How many hints of names there are.
pub const HINTS: usize = 1 << 12;

/// How many hints of chains there are.
pub const CHAIN_HINTS: usize = 1 << 14;

/// How many hints of words are kept at most.
pub const WORD_HINTS: u64 = 1 << 17;

/// So many blocks of one class have a hint each.
const BLOCKS: u64 = 32;

/// An odd number by which bytes are spread.
const SPREAD: u64 = 0x9e37_79b9_7f4a_7c15;

/// By a number that is made of a name, the place at which such a name was found last. A hint has no meaning:
/// whoever reads one compares the name that stands there.
#[derive(Drop)]
pub struct Hints {
    places: [u32; HINTS],
}

impl Hints {
    pub fn new() -> Hints {
        Hints { places: [0; HINTS] }
    }

    /// The place at which a name like this one was found last.
    #[inline(always)]
    pub fn of(&self, name: ClassName<'_>) -> u32 {
        self.places[slot(name)]
    }

    /// The name was found at this place.
    pub fn note(&mut self, name: ClassName<'_>, place: u32) {
        self.places[slot(name)] = place;
    }
}

/// By a number that is made of a link, the number of the chain that was found last by such a link. As a hint of a
/// name it has no meaning: whoever reads one compares the link that stands there.
#[derive(Drop)]
pub struct ChainHints {
    chains: [u32; CHAIN_HINTS],
}

impl ChainHints {
    pub fn new() -> ChainHints {
        ChainHints {
            chains: [0; CHAIN_HINTS],
        }
    }

    /// The number of the chain that was found last by a link like this one.
    #[inline(always)]
    pub fn of(&self, link: Link) -> u32 {
        self.chains[chain_slot(link)]
    }

    /// The link is that of this chain.
    #[inline(always)]
    pub fn note(&mut self, link: Link, chain: u32) {
        self.chains[chain_slot(link)] = chain;
    }
}

/// By a number that is made of a word, the number that such a word had last. Words of up to 2,048 classes have a hint
/// each. As a hint of a name it has no meaning: whoever reads one compares the word of that number. If memory for a
/// hint is refused, there is none.
#[derive(Drop)]
pub struct WordHints {
    numbers: Vec<u32>,
}

impl WordHints {
    /// No hint. Takes no memory.
    pub fn new(alloc: Global) -> WordHints {
        WordHints {
            numbers: Vec::new(alloc),
        }
    }

    /// The number that a word like this one had last.
    #[inline(always)]
    pub fn of(&self, word: Word) -> u32 {
        match self.numbers.get(word_slot(word)) {
            Some(number) => *number,
            None => 0,
        }
    }

    /// The word has this number. It is kept if there is memory for it.
    pub fn note(&mut self, word: Word, number: u32) {
        let slot = word_slot(word);
        if self.numbers.len() <= slot && self.numbers.resize(slot + 1, 0).is_err() {
            return;
        }
        self.numbers[slot] = number;
    }
}

/// The number that is made of a name, of both ends of its bytes.
#[inline(always)]
fn slot(name: ClassName<'_>) -> usize
    ensures { result < HINTS }
{
    let ends = match (name.name.first_chunk(), name.name.last_chunk()) {
        (Some(first), Some(last)) => spread(u64::from_le_bytes(*first), u64::from_le_bytes(*last)),
        _ => ends_of_short(name.name),
    };
    (ends.wrapping_add(name.sub as u64) % HINTS as u64) as usize
}

/// Of fewer than eight bytes.
fn ends_of_short(name: &[u8]) -> u64 {
    match (name.first_chunk(), name.last_chunk()) {
        (Some(first), Some(last)) => spread(
            u32::from_le_bytes(*first) as u64,
            u32::from_le_bytes(*last) as u64,
        ),
        _ => spread(folded(name), 0),
    }
}

/// All bytes of a name of fewer than four.
fn folded(name: &[u8]) -> u64 {
    let mut bytes: u64 = 0;
    for byte in name {
        bytes = bytes.wrapping_mul(1 << 8).wrapping_add(*byte as u64);
    }
    bytes
}

/// A number of 12 bits, most of them touched by each bit of these.
#[inline(always)]
fn spread(first: u64, last: u64) -> u64 {
    product(first, last) / (1 << 52)
}

/// The number that is made of a link.
#[inline(always)]
fn chain_slot(link: Link) -> usize
    ensures { result < CHAIN_HINTS }
{
    let before = match link.before {
        Some(chain) => chain as u64 + 1,
        None => 0,
    };
    (product(before, link.class as u64) / (1 << 50) % CHAIN_HINTS as u64) as usize
}

/// The number that is made of a word.
#[inline(always)]
fn word_slot(word: Word) -> usize
    ensures { result < WORD_HINTS }
{
    ((word.to as u64 * BLOCKS + word.block as u64) % WORD_HINTS) as usize
}

/// A number of which the upper bits are touched by each bit of these.
#[inline(always)]
fn product(first: u64, last: u64) -> u64 {
    first
        .wrapping_mul(SPREAD)
        .wrapping_add(last)
        .wrapping_mul(SPREAD)
}
