//! What the batch that was added last showed for the first time.
ghost use Rattle.std.specs.Prelude.{◌≡◌, [], OnErr, OnOk, vec_len, vec_capacity};
ghost use Rattle.ld_union.specs.Inner.States.{of_state};

use crate::reaches::PerState;
use ld_class::Usage;
use ld_trace::State;
use std::alloc::{AllocError, Global};
use std::marker::Model;

/// A usage bit that a class didn't have before.
#[derive(Clone, Copy, Debug, PartialEq, Eq)]
pub struct NewBit {
    /// The number of the class.
    pub class: u32,
    /// The bit, alone.
    pub bit: Usage,
}

/// What was new to a union in the batch that was added last: usage bits, and for each state the classes
/// that were reached from a place on. It keeps its memory for the next one.
#[derive(Drop)]
pub struct Delta {
    pub(crate) bits: Vec<NewBit>,
    pub(crate) first_reached: PerState<usize>,
}

impl Model for Delta {
    ghost use Rattle.ld_union.specs.Inner.Delta.{PlainDelta};

    ghost Value = { PlainDelta };

    ghost view = { λ n. record {
      bits = n.bits.items;
      first_reached = n.first_reached;
    } };
}

impl Delta {
    /// Nothing new to a union of no traces. Takes no memory.
    pub fn new(alloc: Global) -> Delta
        ensures { result ≡ record {
          bits = [];
          first_reached = record { hard = 0; soft = 0 };
        } }
    {
        Delta {
            bits: Vec::new(alloc),
            first_reached: PerState { hard: 0, soft: 0 },
        }
    }

    /// The new usage bits, in no promised order. Takes no memory.
    pub fn bits(&self) -> &[NewBit]
        ensures { result.now ≡ self.now.bits }
    {
        &self.bits
    }

    /// The place from which on the classes that the union tells as reached were reached by what was added
    /// last. Takes no memory.
    pub fn first_reached(&self, state: State) -> usize
        ensures { result ≡ of_state self.now.first_reached state }
    {
        self.first_reached.get(state)
    }
}
