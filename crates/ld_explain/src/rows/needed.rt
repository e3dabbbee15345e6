//! The dependencies and the ends of violations, each once.
ghost use Rattle.std.specs.Prelude.{◌≡◌, [], All, List, OnOk};
ghost use Rattle.ld_trace.specs.Sources.{PlainSource};
ghost use Rattle.ld_explain.specs.Steps.{IsAtFirst};

use crate::violations::{Dependency, Step};
use indexmap::IndexMap;
use ld_overview::{ClassName, Witness};
use ld_rows::Use;
use ld_trace::State;
use std::alloc::{AllocError, Global};

/// An end of violations, and where it was first seen.
#[derive(Clone, Copy)]
pub struct NeededEnd<'a> {
    pub class: ClassName<'a>,
    pub state: State,
    pub used: Use,
    pub at: Witness,
}

/// What an end is of.
#[derive(Clone, Copy, PartialEq, Eq, Hash)]
struct EndKey<'a> {
    class: ClassName<'a>,
    bit: Bit,
}

/// A usage bit.
#[derive(Clone, Copy, PartialEq, Eq, Hash)]
enum Bit {
    InHard,
    OnHard,
    InSoft,
    OnSoft,
}

/// The dependencies and the ends of some violations, each once, in the order in which they are first needed.
#[derive(Drop)]
pub struct Needed<'a> {
    pub steps: Vec<Step<'a>>,
    pub ends: Vec<NeededEnd<'a>>,
    /// The places of the steps.
    step_places: IndexMap<Dependency<'a>, usize>,
    /// The places of the ends.
    end_places: IndexMap<EndKey<'a>, usize>,
}

impl<'a> Needed<'a> {
    /// None.
    pub fn new(alloc: Global) -> Needed<'a>
        ensures { result.steps.items ≡ [] }
    {
        Needed {
            steps: Vec::new(alloc),
            ends: Vec::new(alloc),
            step_places: IndexMap::new(alloc),
            end_places: IndexMap::new(alloc),
        }
    }

    /// The place of a dependency, which is put behind the others if it is new.
    pub fn step(&mut self, step: Step<'a>) -> Result<usize, AllocError>
        ensures { (sources : List PlainSource) → All (IsAtFirst sources) self.old.steps.items
            → IsAtFirst sources step.entry
            → OnOk result (All (IsAtFirst sources) self.new.steps.items) }
    {
        if let Some(place) = self.step_places.get(&step.dependency) {
            return Ok(*place);
        }
        let place = self.steps.len();
        self.step_places.insert(step.dependency, place)?;
        self.steps.push(step)?;
        Ok(place)
    }

    /// The place of an end, which is put behind the others if it is new.
    pub fn end(&mut self, end: NeededEnd<'a>) -> Result<usize, AllocError>
        ensures { self.new.steps.items ≡ self.old.steps.items }
    {
        let key = EndKey {
            class: end.class,
            bit: bit_of(end.state, end.used),
        };
        if let Some(place) = self.end_places.get(&key) {
            return Ok(*place);
        }
        let place = self.ends.len();
        self.end_places.insert(key, place)?;
        self.ends.push(end)?;
        Ok(place)
    }

    /// The place of a dependency that is needed.
    pub fn place(&self, dependency: &Dependency<'a>) -> Option<usize> {
        self.step_places.get(dependency).copied()
    }

    /// Where they were first seen.
    pub fn witnesses(&self, alloc: Global) -> Result<Vec<Witness>, AllocError> {
        let mut wanted = Vec::with_capacity(alloc, self.steps.len())?;
        for step in &self.steps {
            wanted.push(step.first)?;
        }
        for end in &self.ends {
            wanted.push(end.at)?;
        }
        Ok(wanted)
    }
}

/// The usage bit of a class at an end.
fn bit_of(state: State, used: Use) -> Bit {
    match (state, used) {
        (State::Hard, Use::Safe) => Bit::InHard,
        (State::Hard, Use::Exposed) => Bit::OnHard,
        (State::Soft, Use::Safe) => Bit::InSoft,
        (State::Soft, Use::Exposed) => Bit::OnSoft,
    }
}
