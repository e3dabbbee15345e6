//! `Shown`, which lends what a few traces show together.
ghost use Rattle.std.specs.Prelude.{◌≡◌, All, length};
ghost use Rattle.ld_class.specs.Blocks.{IsBlock};
ghost use Rattle.ld_rules.specs.Union.{union_classes};
ghost use Rattle.ld_batch.specs.Batch.{AreFewClasses, AreOutcomes, IsShown, sources_of};
ghost use Rattle.ld_batch.specs.Inner.Rows.{edges_of};

use crate::names::number_at;
use crate::rows::{WitnessedUse, Words};
use ld_class::ClassList;
use ld_rules::Listed;
use std::marker::Model;

/// What a few traces show together, which may come after others: the dependencies and usage bits that none of
/// those behind shows, with the first witnesses. It has the classes of all of them. It is lent by what read them.
#[derive(Drop)]
pub struct Shown<'b, 'a> {
    /// The traces behind: read by the view alone.
    behind: &'b [Listed<'a>],
    traces: &'b [Listed<'a>],
    classes: &'b ClassList<'a>,
    /// How many of the classes are of the traces behind.
    classes_behind: usize,
    edges: Words<'b>,
    usage: &'b [WitnessedUse],
    class_numbers: &'b [u32],
}

impl<'b, 'a> Model for Shown<'b, 'a> {
    ghost use Rattle.std.specs.Prelude.{◌≡◌, All, length};
    ghost use Rattle.ld_class.specs.Blocks.{IsBlock};
    ghost use Rattle.ld_rules.specs.Union.{union_classes};
    ghost use Rattle.ld_batch.specs.Batch.{PlainShown, sources_of};
    ghost use Rattle.ld_batch.specs.Inner.Lent.{IsLent};
    ghost use Rattle.ld_batch.specs.Inner.Rows.{edges_of};

    ghost Value = { PlainShown };

    ghost view = { λ s. record {
      behind = sources_of s.behind.now;
      sources = sources_of s.traces.now;
      classes = s.classes.now;
      edges = edges_of s.edges.places.now s.edges.words.now;
      usage = s.usage.now;
    } };

    ghost invariant = { λ s. IsLent (record {
      behind = sources_of s.behind.now;
      sources = sources_of s.traces.now;
      classes = s.classes.now;
      edges = edges_of s.edges.places.now s.edges.words.now;
      usage = s.usage.now;
    }) s.traces.now s.classes_behind s.edges.words.now };
}

impl<'b, 'a> Shown<'b, 'a> {
    /// What these traces show, behind which there are those. The classes are of both, so many of them of those behind.
    /// The numbers are those by which hints are kept of the classes, in their order.
    pub fn new(
        behind: &'b [Listed<'a>],
        traces: &'b [Listed<'a>],
        classes: &'b ClassList<'a>,
        classes_behind: usize,
        words: Words<'b>,
        usage: &'b [WitnessedUse],
        class_numbers: &'b [u32],
    ) -> Shown<'b, 'a>
        requires shown { IsShown (record {
          behind = sources_of behind.now;
          sources = sources_of traces.now;
          classes = classes.now;
          edges = edges_of words.places.now words.words.now;
          usage = usage.now;
        }) }
        requires outcomes { AreOutcomes traces.now }
        requires few { AreFewClasses (record {
          behind = sources_of behind.now;
          sources = sources_of traces.now;
          classes = classes.now;
          edges = edges_of words.places.now words.words.now;
          usage = usage.now;
        }) }
        requires behind { classes_behind ≡ length (union_classes (sources_of behind.now)) }
        requires low { All (λ w. IsBlock w.block) words.words.now }
        ensures { result
            ≡ record {
              behind = sources_of behind.now;
              sources = sources_of traces.now;
              classes = classes.now;
              edges = edges_of words.entry.places.now words.entry.words.now;
              usage = usage.now;
            } }
    {
        Shown {
            behind,
            traces,
            classes,
            classes_behind,
            edges: words,
            usage,
            class_numbers,
        }
    }

    /// The traces with their outcomes, in order of their numbers, without those behind. Takes no memory.
    pub fn traces(&self) -> &'b [Listed<'a>]
        ensures sources { sources_of result.now ≡ self.now.sources }
        ensures outcomes { AreOutcomes result.now }
        ensures exact { IsShown self.now }
        ensures few { AreFewClasses self.now }
    {
        self.traces
    }

    /// The classes of all traces in order of first acquisition: those of the traces behind come first. Takes no memory.
    pub fn classes(&self) -> &'b ClassList<'a>
        ensures { result.now ≡ self.now.classes }
    {
        self.classes
    }

    /// How many of the classes are of the traces behind. Takes no memory.
    pub fn classes_behind(&self) -> usize
        ensures same { result ≡ length (union_classes self.now.behind) }
        ensures exact { IsShown self.now }
    {
        self.classes_behind
    }

    /// The dependencies by words, each once with its first witness, in no promised order. Takes no memory.
    pub fn words(&self) -> Words<'b>
        ensures same { edges_of result.places.now result.words.now ≡ self.now.edges }
        ensures low { All (λ w. IsBlock w.block) result.words.now }
        ensures exact { IsShown self.now }
    {
        self.edges
    }

    /// How many dependencies there are. Takes no memory.
    pub fn count(&self) -> usize
        ensures { result ≡ length self.now.edges }
    {
        self.words().count()
    }

    /// The usage bits, each of each class once with its first witness, in no promised order. Takes no
    /// memory.
    pub fn usage(&self) -> &'b [WitnessedUse]
        ensures same { result.now ≡ self.now.usage }
        ensures exact { IsShown self.now }
    {
        self.usage
    }

    /// The numbers by which hints of the classes are kept, in the order of the classes. Takes no memory.
    pub fn class_numbers(&self) -> &'b [u32] {
        self.class_numbers
    }

    /// The number by which hints of the class at this place are kept. Takes no memory.
    pub fn class_number(&self, place: u32) -> u32 {
        number_at(self.class_numbers, place as usize)
    }
}
