//! Which dependencies are known to have been seen before a trace.
ghost use Rattle.std.specs.Prelude.{◌≡◌, ◌<◌, ◌⊎◌, ℕ, [], length, slice_index_or};
ghost use Rattle.std.specs.Bool.{OnTrue};
ghost use Rattle.ld_graph.specs.declared.Edge.{Edge};
ghost use Rattle.ld_union.specs.Inner.Earlier.{IsKnownEarlier, block_of, no_block};

use ld_graph::Edge;
use std::alloc::Global;
use std::marker::Model;

/// Only dependencies of classes with lesser numbers are kept.
const CLASSES: u32 = 1024;

/// How many blocks of 64 classes each acquired class has.
const BLOCKS: usize = 16;

/// A dependency whose block has this index, or a greater one, is not kept.
const MOST_BLOCKS: usize = CLASSES as usize * BLOCKS;

/// The dependencies of 64 classes with neighbouring numbers on one that is acquired under them.
#[derive(Clone, Copy)]
pub(crate) struct Block {
    /// Bit k is on if the dependency of class k of the block was seen.
    bits: u64,
    /// Each of these was seen in a trace of at most this number.
    latest: u64,
}

impl Block {
    /// No dependency.
    fn empty() -> Block
        ensures { result ≡ no_block }
    {
        Block { bits: 0, latest: 0 }
    }
}

/// Dependencies that were seen, so that one that comes again is told by one look at its block, not by a search in the
/// graph. It is a cache: it has classes with small numbers alone, and fewer of them if memory is refused.
#[derive(Drop)]
pub(crate) struct Earlier {
    blocks: Vec<Block>,
}

impl Model for Earlier {
    ghost use Rattle.std.specs.Prelude.{List};
    ghost use Rattle.ld_union.specs.declared.dependencies.earlier.Block.{Block};

    ghost Value = { List Block };

    ghost view = { λ e. e.blocks.items };
}

impl Earlier {
    /// None. Takes no memory.
    pub(crate) fn new(alloc: Global) -> Earlier
        ensures { result ≡ [] }
    {
        Earlier {
            blocks: Vec::new(alloc),
        }
    }

    /// Whether it is known that the dependency was seen in a trace before this one.
    #[inline(always)]
    pub(crate) fn has(&self, edge: Edge, number: u64) -> bool
        ensures { OnTrue result (IsKnownEarlier self.now edge number) }
    {
        let block = self.block(edge);
        edge.from < CLASSES && block.latest < number && (block.bits >> (edge.from % 64)) % 2 == 1
    }

    /// The block that the dependency is of, or an empty one.
    #[inline(always)]
    fn block(&self, edge: Edge) -> Block
        ensures { result ≡ slice_index_or self.now (block_of edge) no_block }
    {
        match self.blocks.get(index_of(edge)) {
            Some(block) => *block,
            None => Block::empty(),
        }
    }

    /// The dependency was seen in this trace. What is known of others stays, or is less.
    pub(crate) fn add(&mut self, edge: Edge, number: u64)
        ensures { (e : Edge) (n : ℕ) → IsKnownEarlier self.new e n
            → (IsKnownEarlier self.old e n) ⊎ ((e ≡ edge) × (number < n)) }
    {
        let index = index_of(edge);
        if edge.from >= CLASSES || index >= MOST_BLOCKS || !self.make_room(index) {
            return;
        }
        let block = &mut self.blocks[index];
        block.bits |= 1 << (edge.from % 64);
        block.latest = block.latest.max(number);
    }

    /// Has a block at this index, if there is memory for it. Further ones are empty.
    fn make_room(&mut self, index: usize) -> bool
        requires { index < 16384 }
        ensures there { OnTrue result (index < length self.new) }
        ensures same { (i : ℕ) → slice_index_or self.new i no_block ≡ slice_index_or self.old i no_block }
    {
        if index < self.blocks.len() {
            return true;
        }
        // Twice as many: a list that grows block by block is copied each time.
        self.blocks.resize(2 * index + 1, Block::empty()).is_ok()
    }
}

/// Where the block of a dependency stands.
fn index_of(edge: Edge) -> usize
    ensures { result ≡ block_of edge }
{
    edge.to as usize * BLOCKS + (edge.from / 64) as usize
}
