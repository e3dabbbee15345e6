//! The dependencies between numbered classes.
ghost use Rattle.std.specs.Prelude.{◌≡◌, ◌<◌, ◌≤◌, ◌∷◌, true, [], All, fold, length, map, take, IfOk, IfSome, OnOk, slice_index_or, ◌&&◌, ℕ, not};
ghost use Rattle.ld_tables.specs.declared.masks.Mask.{Mask};
ghost use Rattle.std.specs.Bool.{OnTrue};
ghost use Rattle.ld_class.specs.Blocks.{IsBlock, is_on};
ghost use Rattle.ld_tables.specs.declared.edges.TheConstants.{MOST_WORDS};
ghost use Rattle.ld_tables.specs.Inner.Edges.{AreMasks, AreMore, AreToldTo, classes_of, edge_to, edges_of, with_edge_fact, word_at, has_told};

use crate::held::Held;
use crate::hints::WordHints;
use crate::masks::{Mask, NewEdges, Seats, Word, add_bit};
use crate::sparse_set::as_number;
use indexmap::IndexSet;
use std::alloc::{AllocError, Global};
use std::marker::Model;

/// A dependency, and the least line at which it stands.
#[derive(Clone, Copy, Debug, PartialEq, Eq)]
pub struct EdgeFact {
    /// The number of the class that was held.
    pub from: u32,
    /// The number of the class that was acquired under it.
    pub to: u32,
    /// The number of the line in the stream.
    pub line: u64,
}

/// Where so many words have numbers, there is no room for further ones.
pub const MOST_WORDS: usize = 1 << 19;

// Clauses cite the constant, so they would hold with any other number that fits.
const _: () = prove!(MOST_WORDS == 524_288);

/// Dependencies, each pair of classes once, with the line that was told first.
///
/// Words have numbers, which they keep when the dependencies are taken away, so that a chain whose masks
/// are kept tells its dependencies without looking them up. How many words there are is bounded where the
/// dependencies are taken away, and not between.
///
/// A call answers `AllocError` where a growth of memory was refused.
#[derive(Drop)]
pub struct Edges {
    words: IndexSet<Word>,
    /// Where words were found last.
    hints: WordHints,
    /// By the number of a word the bits of it that were told.
    told: Vec<u64>,
    tellings: Vec<NewEdges>,
}

impl Model for Edges {
    ghost use Rattle.ld_tables.specs.Inner.Edges.{AreTold, KeptEdges};

    ghost Value = { KeptEdges };

    ghost view = { λ e. record { tellings = e.tellings.items; words = e.words.keys } };

    ghost invariant = { λ e. AreTold e.words.keys e.told.items e.tellings.items };
}

impl Edges {
    /// No dependencies. Takes no memory.
    pub fn new(alloc: Global) -> Edges
        ensures { result ≡ record { tellings = []; words = [] } }
    {
        Edges {
            words: IndexSet::new(alloc),
            hints: WordHints::new(alloc),
            told: Vec::new(alloc),
            tellings: Vec::new(alloc),
        }
    }

    /// What was told, in the order in which it came.
    pub fn tellings(&self) -> &[NewEdges]
        ensures same { result.now ≡ self.now.tellings }
        ensures low { All (λ t. IsBlock t.word.block) result.now }
    {
        self.tellings.as_slice()
    }

    /// How many words have numbers.
    pub fn numbered(&self) -> usize
        ensures { result ≡ length self.now.words }
    {
        self.words.len()
    }

    /// Whether there is room for the numbers of further words.
    pub fn has_room(&self) -> bool
        ensures room { OnTrue result (length self.now.words < MOST_WORDS) }
        ensures full { length self.now.words < MOST_WORDS → result ≡ true }
    {
        self.words.len() < MOST_WORDS
    }

    /// The number of a word. `AllocError` too if its place is no number of 32 bits. The number that it had last is tried
    /// first.
    // Most words are where the hint says, and are compared where this is called.
    #[inline(always)]
    fn number(&mut self, word: Word) -> Result<u32, AllocError>
        requires { IsBlock word.block }
        ensures tellings { self.new.tellings ≡ self.old.tellings }
        ensures more { AreMore self.old.words self.new.words }
        ensures within { IfOk result (λ number. number < length self.new.words) }
        ensures number { IfOk result (λ number. word_at self.new.words number ≡ word) }
    {
        let hint = self.hints.of(word);
        if is_at(&self.words, hint, word) {
            return Ok(hint);
        }
        let number = self.look_up(word)?;
        self.hints.note(word, number);
        Ok(number)
    }

    /// The same, of a word that isn't where the hint says.
    #[inline(never)]
    fn look_up(&mut self, word: Word) -> Result<u32, AllocError>
        requires { IsBlock word.block }
        ensures tellings { self.new.tellings ≡ self.old.tellings }
        ensures more { AreMore self.old.words self.new.words }
        ensures within { IfOk result (λ number. number < length self.new.words) }
        ensures number { IfOk result (λ number. word_at self.new.words number ≡ word) }
    {
        self.told.reserve(1)?;
        let (number, is_new) = self.words.insert_full(word)?;
        if is_new {
            self.told.push_reserved(0);
        }
        as_number(number)
    }

    /// The word of this number.
    fn word(&self, number: u32) -> Word
        requires { number < length self.now.words }
        ensures { result ≡ word_at self.now.words number }
    {
        self.words.as_slice()[number as usize]
    }

    /// Where there is a mask of the word. `None` says nothing: no mask has the seat of its block.
    #[inline(always)]
    fn place_of(&self, masks: &[Mask], seats: &Seats, word: Word) -> Option<usize>
        requires { All (λ m. m.word < length self.now.words) masks.now }
        ensures within { IfSome result (λ at. at < length masks.now) }
        ensures word { IfSome result (λ at. (d : Mask)
            → word_at self.now.words (slice_index_or masks.now at d).word ≡ word) }
    {
        let seat = seats.of(word.block)?;
        if seat < masks.len() && self.word(masks[seat].word) == word {
            return Some(seat);
        }
        self.search(masks, word)
    }

    /// The same, if a mask of another block has its seat.
    #[inline(never)]
    fn search(&self, masks: &[Mask], word: Word) -> Option<usize>
        requires { All (λ m. m.word < length self.now.words) masks.now }
        ensures within { IfSome result (λ at. at < length masks.now) }
        ensures word { IfSome result (λ at. (d : Mask)
            → word_at self.now.words (slice_index_or masks.now at d).word ≡ word) }
    {
        for (at, mask) in masks.iter().enumerate() {
            if self.word(mask.word) == word {
                return Some(at);
            }
        }
        None
    }

    /// The masks of the dependencies from the classes of these locks to the class.
    pub fn masks(
        &mut self,
        alloc: Global,
        stack: &[Held<'_>],
        class: u32,
    ) -> Result<Vec<Mask>, AllocError>
        ensures tellings { self.new.tellings ≡ self.old.tellings }
        ensures more { AreMore self.old.words self.new.words }
        ensures masks { IfOk result (λ masks. AreMasks self.new.words class
            (map (λ held. held.class) stack.now) masks.items) }
        ensures some { IfOk result (λ masks. 0 < length stack.now → 0 < length masks.items) }
        ensures few { IfOk result (λ masks. length masks.items ≤ length stack.now) }
    {
        let mut masks = Vec::new(alloc);
        masks.reserve(stack.len())?;
        let mut seats = Seats::new();
        for held in stack {
            let word = Word {
                block: held.class / 64,
                to: class,
            };
            let at = self.place_of(&masks, &seats, word);
            let number = match at {
                Some(at) => masks[at].word,
                None => {
                    seats.take(word.block, masks.len());
                    self.number(word)?
                }
            };
            add_bit(&mut masks, at, number, held.class % 64)?;
        }
        Ok(masks)
    }

    /// Adds the dependencies of these masks, which are of words of the class.
    fn tell(&mut self, masks: &[Mask], class: u32, line: u64) -> Result<(), AllocError>
        requires within { All (λ m. m.word < length self.old.words) masks.now }
        requires to { All (λ m. (word_at self.old.words m.word).to ≡ class) masks.now }
        ensures words { self.new.words ≡ self.old.words }
        ensures first { take (length self.old.tellings) self.new.tellings ≡ self.old.tellings }
        ensures told { OnOk result (edges_of self.new.tellings ≡ fold with_edge_fact (edges_of self.old.tellings)
            (map (edge_to class line) (classes_of self.old.words masks.now))) }
    {
        for mask in masks {
            self.tell_mask(*mask, line)?;
        }
        Ok(())
    }

    /// Adds the dependencies of a mask.
    // Most were told before.
    #[inline(always)]
    fn tell_mask(&mut self, mask: Mask, line: u64) -> Result<(), AllocError>
        requires { mask.word < length self.old.words }
        ensures words { self.new.words ≡ self.old.words }
        ensures first { take (length self.old.tellings) self.new.tellings ≡ self.old.tellings }
        ensures told { OnOk result (edges_of self.new.tellings ≡ fold with_edge_fact (edges_of self.old.tellings)
            (map (edge_to (word_at self.old.words mask.word).to line) (classes_of self.old.words (mask ∷ [])))) }
    {
        let told = self.told[mask.word as usize];
        let bits = mask.bits & !told;
        if bits == 0 {
            return Ok(());
        }
        let word = self.word(mask.word);
        self.tellings.reserve(1)?;
        self.told[mask.word as usize] = told | bits;
        self.tellings.push_reserved(NewEdges {
            number: mask.word,
            word,
            bits,
            line,
        });
        Ok(())
    }

    /// Adds the dependencies from the classes of these locks to the class, by their masks where these are known.
    pub fn tell_to(
        &mut self,
        alloc: Global,
        known: Option<&[Mask]>,
        stack: &[Held<'_>],
        class: u32,
        line: u64,
    ) -> Result<(), AllocError>
        requires { IfSome known (λ masks. AreMasks self.old.words class
            (map (λ held. held.class) stack.now) masks.now) }
        ensures more { AreMore self.old.words self.new.words }
        ensures first { take (length self.old.tellings) self.new.tellings ≡ self.old.tellings }
        ensures told { OnOk result (AreToldTo (map (λ held. held.class) stack.now) class line
            (edges_of self.old.tellings) (edges_of self.new.tellings)) }
    {
        match known {
            Some(masks) => self.tell(masks, class, line),
            None => {
                let masks = self.masks(alloc, stack, class)?;
                self.tell(&masks, class, line)
            }
        }
    }

    /// Keeps the first `count` of what was told.
    pub fn cut(&mut self, count: usize)
        ensures { self.new ≡ record self.old { tellings = take count self.old.tellings } }
    {
        if count >= self.tellings.len() {
            return;
        }
        untell(&mut self.told, &self.tellings[count..]);
        self.tellings.truncate(count);
    }

    /// Takes all dependencies away, and the numbers of words. The memory stays.
    pub fn clear(&mut self)
        ensures { self.new ≡ record { tellings = []; words = [] } }
    {
        self.tellings.truncate(0);
        self.told.truncate(0);
        self.words.truncate(0);
    }
}

/// Whether the word has this number.
fn is_at(words: &IndexSet<Word>, number: u32, word: Word) -> bool
    ensures { OnTrue result ((number < length words.now.keys)
        × (slice_index_or words.now.keys number word ≡ word)) }
{
    let place = number as usize;
    place < words.len() && words.as_slice()[place] == word
}

/// Puts the bits of these off.
pub(crate) fn untell(told: &mut Vec<u64>, tellings: &[NewEdges])
    requires { All (λ t. t.number < length told.old.items) tellings.now }
    ensures many { length told.new.items ≡ length told.old.items }
    ensures off { (n k : ℕ) → n < length told.old.items → k < 64 → is_on (slice_index_or told.new.items n 0) k
        ≡ (is_on (slice_index_or told.old.items n 0) k && not (has_told tellings.now n k)) }
{
    for telling in tellings {
        told[telling.number as usize] &= !telling.bits;
    }
}
