//! How the chain of a stack is found, and what is kept with it.
ghost use Rattle.std.specs.Prelude.{◌≡◌, ◌<◌, ◌≤◌, [], ◌∷◌, ◌++◌, length, List, map, option_map};
ghost use Rattle.std.specs.Prelude.{slice_index_or, IfOk};
ghost use Rattle.std.specs.Bool.{OnTrue};
ghost use Rattle.ld_tables.specs.declared.masks.Word.{Word};
ghost use Rattle.ld_tables.specs.declared.edges.TheConstants.{MOST_WORDS};
ghost use Rattle.ld_tables.specs.Inner.Chains.{HasRoom, chains_of, link_with};
ghost use Rattle.ld_tables.specs.Inner.Locks.{HasItsMasks, IsChainIfAny, IsExtended, IsNumbered, IsRoomy, chain_of};
ghost use Rattle.ld_tables.specs.Inner.Stacks.{plain_held};
ghost use Rattle.ld_rules.specs.declared.outcome.TheConstants.{MOST_HELD};

use crate::chains::{Chains, Link};
use crate::edges::Edges;
use crate::held::Held;
use crate::marked_set::MarkedSet;
use std::alloc::{AllocError, Global};

/// What stays of the cache where all else is taken away. Only the functions of this file make one, by counting.
#[derive(Clone, Copy, Debug, PartialEq, Eq)]
pub struct Kept {
    chains: usize,
    words: usize,
}

impl Kept {
    /// How many chains.
    pub fn chains(&self) -> usize
        ensures { result ≡ self.now.chains }
    {
        self.chains
    }

    /// How many words have numbers.
    pub fn words(&self) -> usize
        ensures { result ≡ self.now.words }
    {
        self.words
    }
}

/// Counts the chains, and the words with numbers.
fn count(chains: &Chains, edges: &Edges) -> Kept
    ensures chains { result.chains ≡ length chains.now.links }
    ensures words { result.words ≡ length edges.now.words }
{
    Kept {
        chains: chains.len(),
        words: edges.numbered(),
    }
}

/// Takes all chains away, and the numbers of words, where there is no room for further ones of either, and counts
/// those that stay. There is no dependency.
pub fn make_room(chains: &mut Chains, edges: &mut Edges) -> Kept
    requires { edges.old.tellings ≡ [] }
    ensures chains { result.chains ≡ length chains.new.links }
    ensures words { result.words ≡ length edges.new.words }
    ensures room { HasRoom chains.new }
    ensures few { length edges.new.words < MOST_WORDS }
    ensures edges { edges.new.tellings ≡ [] }
    ensures numbered { HasItsMasks (chains_of chains.old.links) chains.old.masks edges.old.words
        → HasItsMasks (chains_of chains.new.links) chains.new.masks edges.new.words }
{
    if chains.has_room() && edges.has_room() {
        return count(chains, edges);
    }
    chains.clear();
    edges.clear();
    count(chains, edges)
}

/// The same at the start of a trace, where nothing was told.
pub fn make_room_if_untold(chains: &mut Chains, told: &MarkedSet, edges: &mut Edges)
    ensures room { told.now ≡ [] → edges.old.tellings ≡ [] → IsRoomy chains.new edges.new }
    ensures same { 0 < length told.now → chains.new ≡ chains.old }
    ensures edges { edges.new.tellings ≡ edges.old.tellings }
    ensures numbered { HasItsMasks (chains_of chains.old.links) chains.old.masks edges.old.words
        → HasItsMasks (chains_of chains.new.links) chains.new.masks edges.new.words }
{
    if told.as_slice().is_empty() && edges.tellings().is_empty() {
        make_room(chains, edges);
    }
}

/// The number of the chain of a stack's classes and one more, which may be new. `None` where that of the
/// stack isn't known, and where there is no room for a new one.
#[inline(always)]
pub fn linked(
    chains: &mut Chains,
    stack: &[Held<'_>],
    class: u32,
) -> Result<Option<u32>, AllocError>
    requires { IsNumbered (chains_of chains.old.links) (map plain_held stack.now) }
    ensures numbered { (words : List Word)
        → HasItsMasks (chains_of chains.old.links) chains.old.masks words
        → HasItsMasks (chains_of chains.new.links) chains.new.masks words }
    ensures more { IsExtended (chains_of chains.old.links) (chains_of chains.new.links) }
    ensures chain { IfOk result (λ chain. IsChainIfAny (chains_of chains.new.links) chain
        (map (λ held. held.class) stack.now ++ class ∷ [])) }
{
    let Some(link) = link_to(stack, class) else {
        return Ok(None);
    };
    if let Some(chain) = chains.find(link) {
        return Ok(Some(chain));
    }
    if chains.is_full() {
        return Ok(None);
    }
    Ok(Some(chains.add(link)?))
}

/// May keep the masks of a chain, of the dependencies from the classes of a stack to one more. It does where the
/// chain is one of those `met` before, there is room for them and they aren't kept, since most chains are told once
/// and never again; no clause says so.
pub fn learn(
    chains: &mut Chains,
    edges: &mut Edges,
    alloc: Global,
    met: usize,
    chain: u32,
    stack: &[Held<'_>],
    class: u32,
) -> Result<(), AllocError>
    requires within { chain < length (chains_of chains.old.links) }
    requires is { slice_index_or (chains_of chains.old.links) chain []
        ≡ map (λ held. held.class) stack.now ++ class ∷ [] }
    requires depth { length stack.now ≤ MOST_HELD }
    requires numbered { HasItsMasks (chains_of chains.old.links) chains.old.masks edges.old.words }
    ensures numbered { HasItsMasks (chains_of chains.new.links) chains.new.masks edges.new.words }
    ensures links { chains.new.links ≡ chains.old.links }
    ensures edges { edges.new.tellings ≡ edges.old.tellings }
{
    if stack.is_empty() || chain as usize >= met || chains.masks(chain).is_some() {
        return Ok(());
    }
    if !chains.has_room() {
        return Ok(());
    }
    let masks = edges.masks(alloc, stack, class)?;
    chains.keep(chain, &masks)
}

/// The chain of the classes of a stack and one more, where that of the stack is known.
fn link_to(stack: &[Held<'_>], class: u32) -> Option<Link>
    ensures { result ≡ option_map (link_with class) (chain_of (map plain_held stack.now)) }
{
    match stack.last() {
        Some(held) => match held.chain {
            Some(chain) => Some(Link {
                before: Some(chain),
                class,
            }),
            None => None,
        },
        None => Some(Link {
            before: None,
            class,
        }),
    }
}

/// Whether the last of the locks stands at this place or behind it, and its chain isn't known.
pub fn is_unlinked(held: &[Held<'_>], start: usize) -> bool
    ensures { OnTrue result (start < length held.now) }
{
    match held.last() {
        Some(last) => start < held.len() && last.chain.is_none(),
        None => false,
    }
}
