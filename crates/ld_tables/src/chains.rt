//! Chains of classes: the lists of the classes that a task holds in a frame, in order of acquisition.
ghost use Rattle.std.specs.Prelude.{◌≡◌, ◌<◌, ◌≤◌, ◌+◌, ℕ, [], ◌∷◌, ◌++◌, false, length, slice_index_or};
ghost use Rattle.std.specs.Prelude.{true, IfNone, IfOk, IfSome, None, Some, OnErr, OnOk, option_map, slice_set};
ghost use Rattle.std.specs.Bool.{OnFalse, OnTrue};
ghost use Rattle.std.specs.List.{list_any};
ghost use Rattle.ld_tables.specs.Inner.Chains.{HasRoom, KeptChains, chain_before, chains_of, no_chains};
ghost use Rattle.ld_tables.specs.Inner.Chains.{same_link};
ghost use Rattle.ld_tables.specs.declared.chains.TheConstants.{MOST_CHAINS, MOST_KEPT};
ghost use Rattle.ld_rules.specs.declared.outcome.TheConstants.{MOST_HELD};

use crate::hints::ChainHints;
use crate::masks::Mask;
use indexmap::IndexSet;
use std::alloc::{AllocError, Global};
use std::marker::Model;

/// A chain, by its last class and the number of the chain before it; that is `None` where this is
/// the first class.
#[derive(Clone, Copy, PartialEq, Eq, Hash)]
pub struct Link {
    pub before: Option<u32>,
    pub class: u32,
}

/// Once so many masks are kept with the chains, those of no further chain are.
pub const MOST_KEPT: usize = 1 << 18;

/// How many chains there are at most.
pub const MOST_CHAINS: usize = 1 << 17;

// Clauses cite the constants, so they would hold with any other numbers that fit.
const _: () = prove!(MOST_KEPT == 262_144 && MOST_CHAINS == 131_072);

/// Where the masks of a chain stand among those of all chains; from a place to itself where they aren't kept.
#[derive(Clone, Copy)]
pub struct Run {
    pub start: u32,
    pub end: u32,
}

/// The chains that were met, each once. They are the nodes of a tree, and are numbered from 0.
#[derive(Drop)]
pub struct Chains {
    links: IndexSet<Link>,
    /// The masks that are kept, of one chain after another.
    masks: Vec<Mask>,
    /// By the number of a chain, where the masks of the dependencies from the classes before its last one to that
    /// stand. They aren't kept until the chain is told when it was there already, nor where there was no
    /// room for them.
    runs: Vec<Run>,
    /// The chain that was answered last. It may be past the end, and says nothing then.
    last: u32,
    /// Where others were found last.
    hints: ChainHints,
}

impl Model for Chains {
    ghost use Rattle.std.specs.Prelude.{length, map};
    ghost use Rattle.ld_tables.specs.Inner.Chains.{AreKept, KeptChains, masks_in};

    ghost Value = { KeptChains };

    ghost view = { λ c. record {
      links = c.links.keys;
      masks = map (masks_in c.masks.items) c.runs.items;
      kept = length c.masks.items;
    } };

    ghost invariant = { λ c. AreKept c.links.keys c.masks.items c.runs.items };
}

impl Chains {
    pub fn new(alloc: Global) -> Chains
        ensures { result ≡ no_chains }
    {
        Chains {
            links: IndexSet::new(alloc),
            masks: Vec::new(alloc),
            runs: Vec::new(alloc),
            last: 0,
            hints: ChainHints::new(),
        }
    }

    /// Takes all chains away. The memory stays.
    pub fn clear(&mut self)
        ensures { self.new ≡ no_chains }
    {
        self.links.truncate(0);
        self.runs.clear();
        self.masks.clear();
    }

    /// How many chains were met.
    pub fn len(&self) -> usize
        ensures { result ≡ length self.now.links }
    {
        self.links.len()
    }

    /// Whether there are as many chains as there may be.
    pub fn is_full(&self) -> bool
        ensures full { OnTrue result (MOST_CHAINS ≤ length self.now.links) }
        ensures room { OnFalse result (length self.now.links < MOST_CHAINS) }
    {
        self.links.len() >= MOST_CHAINS
    }

    /// Whether there is room for one more chain, and to keep more masks.
    pub fn has_room(&self) -> bool
        ensures room { OnTrue result (HasRoom self.now) }
        ensures full { HasRoom self.now → result ≡ true }
    {
        self.masks.len() < MOST_KEPT && self.links.len() < MOST_CHAINS
    }

    /// The number of a chain, or `None` where it wasn't met. One that is asked for twice on end is looked
    /// up once.
    // What a task holds after it waited is the chain of the call before, which is compared where this is called.
    #[inline(always)]
    pub fn find(&mut self, link: Link) -> Option<u32>
        requires { IfSome link.before (λ n. n < length (chains_of self.old.links)) }
        ensures same { self.new ≡ self.old }
        ensures many { length self.old.masks ≡ length self.old.links }
        ensures none { IfNone result (list_any (same_link link) self.old.links ≡ false) }
        ensures within { IfSome result (λ n. n < length (chains_of self.old.links)) }
        ensures chain { IfSome result (λ n. slice_index_or (chains_of self.old.links) n []
            ≡ chain_before (chains_of self.old.links) link.before ++ link.class ∷ []) }
    {
        if is_at(&self.links, self.last, link) {
            return Some(self.last);
        }
        self.hint(link)
    }

    /// The same, of a chain that isn't that of the call before: where it was found last is asked first.
    // Most chains are those that the hint names.
    #[inline(always)]
    fn hint(&mut self, link: Link) -> Option<u32>
        requires { IfSome link.before (λ n. n < length (chains_of self.old.links)) }
        ensures same { self.new ≡ self.old }
        ensures many { length self.old.masks ≡ length self.old.links }
        ensures none { IfNone result (list_any (same_link link) self.old.links ≡ false) }
        ensures within { IfSome result (λ n. n < length (chains_of self.old.links)) }
        ensures chain { IfSome result (λ n. slice_index_or (chains_of self.old.links) n []
            ≡ chain_before (chains_of self.old.links) link.before ++ link.class ∷ []) }
    {
        let hint = self.hints.of(link);
        if is_at(&self.links, hint, link) {
            self.last = hint;
            return Some(hint);
        }
        self.look_up(link)
    }

    /// The same, of a chain that the hint doesn't name.
    #[inline(never)]
    fn look_up(&mut self, link: Link) -> Option<u32>
        requires { IfSome link.before (λ n. n < length (chains_of self.old.links)) }
        ensures same { self.new ≡ self.old }
        ensures many { length self.old.masks ≡ length self.old.links }
        ensures none { IfNone result (list_any (same_link link) self.old.links ≡ false) }
        ensures within { IfSome result (λ n. n < length (chains_of self.old.links)) }
        ensures chain { IfSome result (λ n. slice_index_or (chains_of self.old.links) n []
            ≡ chain_before (chains_of self.old.links) link.before ++ link.class ∷ []) }
    {
        let place = self.links.get_index_of(&link)?;
        self.last = place as u32;
        self.hints.note(link, place as u32);
        Some(place as u32)
    }

    /// Adds a chain that wasn't met, where there is room for it, and answers its number.
    pub fn add(&mut self, link: Link) -> Result<u32, AllocError>
        requires before { IfSome link.before (λ n. n < length (chains_of self.old.links)) }
        requires new { list_any (same_link link) self.old.links ≡ false }
        requires room { length self.old.links < MOST_CHAINS }
        ensures number { IfOk result (λ n. n ≡ length self.old.links) }
        ensures links { OnOk result (self.new.links ≡ self.old.links ++ link ∷ []) }
        ensures masks { OnOk result (self.new.masks ≡ self.old.masks ++ None ∷ []) }
        ensures kept { self.new.kept ≡ self.old.kept }
        ensures refused { OnErr result (self.new ≡ self.old) }
    {
        let number = self.links.len() as u32;
        self.runs.reserve(1)?;
        self.links.insert(link)?;
        self.runs.push_reserved(Run { start: 0, end: 0 });
        self.last = number;
        Ok(number)
    }

    /// Keeps the masks of the dependencies from the classes before the last one of this chain to that, of which
    /// there are some.
    pub fn keep(&mut self, chain: u32, masks: &[Mask]) -> Result<(), AllocError>
        requires chain { chain < length (chains_of self.old.links) }
        requires some { 0 < length masks.now }
        requires few { length masks.now ≤ MOST_HELD }
        requires room { self.old.kept < MOST_KEPT }
        ensures links { self.new.links ≡ self.old.links }
        ensures masks { OnOk result (self.new.masks
            ≡ slice_set self.old.masks chain (Some masks.now)) }
        ensures kept { OnOk result (self.new.kept ≡ self.old.kept + length masks.now) }
        ensures refused { OnErr result (self.new ≡ self.old) }
    {
        let start = self.masks.len() as u32;
        self.masks.extend_from_slice(masks)?;
        let end = self.masks.len() as u32;
        self.runs[chain as usize] = Run { start, end };
        Ok(())
    }

    /// The masks of the dependencies from the classes before the last one of this chain to that, where they
    /// are kept.
    pub fn masks(&self, chain: u32) -> Option<&[Mask]>
        requires { chain < length (chains_of self.now.links) }
        ensures many { length self.now.masks ≡ length self.now.links }
        ensures kept { option_map (λ masks. masks.now) result
            ≡ slice_index_or self.now.masks chain None }
    {
        let run = self.runs[chain as usize];
        if run.start == run.end {
            return None;
        }
        Some(&self.masks[run.start as usize..run.end as usize])
    }
}

/// Whether the chain stands at the place.
fn is_at(links: &IndexSet<Link>, place: u32, link: Link) -> bool
    ensures { OnTrue result ((place < length links.now.keys)
        × (slice_index_or links.now.keys place link ≡ link)) }
{
    let place = place as usize;
    place < links.len() && links.as_slice()[place] == link
}
