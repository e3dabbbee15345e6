//! The dependencies of a batch, one by one.
ghost use Rattle.std.specs.Prelude.{◌≡◌, All};
ghost use Rattle.std.specs.Iterator.{YieldsFirst, item_count};
ghost use Rattle.ld_class.specs.Blocks.{IsBlock};
ghost use Rattle.ld_batch.specs.Inner.Rows.{edges_of};

use crate::rows::{WitnessedEdge, WitnessedWord, Words};
use ld_rules::Witness;
use std::marker::Model;

/// The dependencies of a batch, each once with its first witness, in no promised order.
#[derive(Drop)]
pub struct Edges<'b> {
    /// All words: read for the places alone.
    all: Words<'b>,
    /// A word with those of its bits that are left.
    word: WitnessedWord,
    /// The words behind it.
    words: &'b [WitnessedWord],
}

impl<'b> Model for Edges<'b> {
    ghost use Rattle.std.specs.Prelude.{◌∷◌, All, List};
    ghost use Rattle.ld_class.specs.Blocks.{IsBlock};
    ghost use Rattle.ld_batch.specs.declared.rows.WitnessedEdge.{WitnessedEdge};
    ghost use Rattle.ld_batch.specs.declared.rows.WitnessedWord.{WitnessedWord};
    ghost use Rattle.ld_batch.specs.Inner.Rows.{edges_of};

    ghost Value = { List WitnessedEdge };

    ghost view = { λ s. edges_of s.all.places.now (s.word ∷ s.words.now) };

    ghost invariant = { λ s. All (λ (w : WitnessedWord). IsBlock w.block) (s.word ∷ s.words.now) };
}

impl<'b> Edges<'b> {
    /// Those of these words. Takes no memory.
    pub fn new(words: Words<'b>) -> Edges<'b>
        requires { All (λ w. IsBlock w.block) words.words.now }
        ensures { result ≡ edges_of words.entry.places.now words.entry.words.now }
    {
        let word = WitnessedWord {
            number: 0,
            block: 0,
            to: 0,
            bits: 0,
            witness: Witness { number: 0, line: 0 },
        };
        Edges {
            all: words,
            word,
            words: words.words,
        }
    }
}

impl<'b> Iterator for Edges<'b> {
    type Item = WitnessedEdge;

    ghost next_gives = { YieldsFirst (λ rest. rest) };

    ghost remaining = { item_count (λ rest. rest) };

    fn next(&mut self) -> Option<WitnessedEdge> {
        let mut word = self.word;
        let mut words = self.words;
        while word.bits == 0 {
            let (first, others) = words.split_first()?;
            word = *first;
            words = others;
        }
        let place = word.bits.trailing_zeros();
        let from = self.all.place(64 * word.block + place);
        let to = self.all.place(word.to);
        let witness = word.witness;
        word.bits &= !(1 << place);
        self.word = word;
        self.words = words;
        Some(WitnessedEdge { from, to, witness })
    }
}
