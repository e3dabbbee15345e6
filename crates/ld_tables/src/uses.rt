//! The usage bits of the numbered classes of some traces.
ghost use Rattle.std.specs.Prelude.{◌≡◌, ◌<◌, ◌-◌, ℕ, [], ◌∷◌, fold, length, map, slice_index_or, take};
ghost use Rattle.std.specs.Prelude.{true, vec_len, OnErr, OnOk};
ghost use Rattle.std.specs.Bool.{OnTrue};
ghost use Rattle.std.specs.List.{list_any};
ghost use Rattle.ld_class.specs.Usage.{has_bit, no_bits};
ghost use Rattle.ld_rules.specs.Usage.{Bit, IsBit, usage_of};
ghost use Rattle.ld_tables.specs.Inner.Uses.{fact, in_facts, on_facts, same_fact, use_at, with_use};

use crate::context::Context;
use crate::held::Held;
use crate::interrupts::Interrupts;
use bitflags::Flags;
use ld_class::Usage;
use ld_trace::State;
use std::alloc::{AllocError, Global};
use std::marker::Model;

/// A usage bit of a class, and the least line at which it stands.
#[derive(Clone, Copy, Debug, PartialEq, Eq)]
pub struct UsageFact {
    /// The number of the class.
    pub class: u32,
    /// The one bit.
    pub bit: Usage,
    /// The number of the line in the stream.
    pub line: u64,
}

/// Usage bits, each of each class once, with the line at which it came first.
///
/// A call answers `AllocError` where a growth of memory was refused. It may have noted some bits then,
/// so the owner takes the trace back, or gives the whole up.
#[derive(Drop)]
pub struct Uses {
    facts: Vec<UsageFact>,
    /// The bits that are there, by the number of their class.
    known: Vec<Usage>,
}

impl Model for Uses {
    ghost use Rattle.std.specs.Prelude.{List};
    ghost use Rattle.ld_tables.specs.declared.uses.UsageFact.{UsageFact};
    ghost use Rattle.ld_tables.specs.Inner.Uses.{AreNoted};

    ghost Value = { List UsageFact };

    ghost view = { λ u. u.facts.items };

    ghost invariant = { λ u. AreNoted u.facts.items u.known.items };
}

impl Uses {
    /// No bits. Takes no memory.
    pub fn new(alloc: Global) -> Uses
        ensures { result ≡ [] }
    {
        Uses {
            facts: Vec::new(alloc),
            known: Vec::new(alloc),
        }
    }

    /// The bits, in the order in which they came.
    pub fn as_slice(&self) -> &[UsageFact]
        ensures { result.now ≡ self.now }
    {
        self.facts.as_slice()
    }

    /// A lock of the class is waited for while these frames are open: the class gets the IN bit of
    /// each frame's state.
    pub fn waited(&mut self, class: u32, context: &Context, line: u64) -> Result<(), AllocError>
        ensures uses { OnOk result
            (self.new ≡ fold with_use self.old (in_facts context.now line class)) }
        ensures first { take (length self.old) self.new ≡ self.old }
    {
        if self.has_all(class, context.in_bits()) {
            return Ok(());
        }
        let interrupts = context.interrupts();
        // The outermost frame first: a hard one lies over a soft one.
        if interrupts.has(State::Soft) {
            let bit = Usage::IN_SOFT;
            self.add(UsageFact { class, bit, line })?;
        }
        if interrupts.has(State::Hard) {
            let bit = Usage::IN_HARD;
            self.add(UsageFact { class, bit, line })?;
        }
        Ok(())
    }

    /// A lock of the class was acquired with these flags: the class gets the ON bit of each state
    /// whose interrupts are enabled, as [`Interrupts::is_enabled`] says.
    pub fn acquired(&mut self, class: u32, context: &Context, line: u64) -> Result<(), AllocError>
        ensures uses { OnOk result
            (self.new ≡ fold with_use self.old (on_facts context.now line (class ∷ []))) }
        ensures first { take (length self.old) self.new ≡ self.old }
    {
        if self.has_all(class, context.on_bits()) {
            return Ok(());
        }
        let interrupts = context.interrupts();
        if interrupts.is_enabled(State::Hard) {
            let bit = Usage::ON_HARD;
            self.add(UsageFact { class, bit, line })?;
        }
        if interrupts.is_enabled(State::Soft) {
            let bit = Usage::ON_SOFT;
            self.add(UsageFact { class, bit, line })?;
        }
        Ok(())
    }

    /// These locks are held with these flags: their classes get the ON bit of each state whose
    /// interrupts are enabled, all for hard ones first.
    pub fn held(
        &mut self,
        stack: &[Held<'_>],
        interrupts: Interrupts,
        line: u64,
    ) -> Result<(), AllocError>
        ensures uses { OnOk result (self.new ≡ fold with_use self.old
            (on_facts interrupts line (map (λ held. held.class) stack.now))) }
        ensures first { take (length self.old) self.new ≡ self.old }
    {
        if interrupts.is_enabled(State::Hard) {
            self.add_each(stack, Usage::ON_HARD, line)?;
        }
        if interrupts.is_enabled(State::Soft) {
            self.add_each(stack, Usage::ON_SOFT, line)?;
        }
        Ok(())
    }

    /// Whether all these bits of the class are there. Most acquisitions show none that isn't.
    fn has_all(&self, class: u32, bits: Usage) -> bool
        ensures { OnTrue result ((bit : Bit) → has_bit bits (usage_of bit) ≡ true
            → list_any (same_fact (fact bit 0 class)) self.now ≡ true) }
    {
        let index = class as usize;
        if self.known.len() <= index {
            return false;
        }
        self.known[index].contains(bits)
    }

    /// Keeps the first `count` of the bits.
    pub fn cut(&mut self, count: usize)
        ensures { self.new ≡ take count self.old }
    {
        while count < self.facts.len() {
            self.drop_last();
        }
    }

    /// Takes away the bit that came last, where there is one.
    fn drop_last(&mut self)
        ensures { self.new ≡ take (length self.old - 1) self.old }
    {
        if let Some(fact) = self.facts.pop() {
            self.known[fact.class as usize].remove(fact.bit);
        }
    }

    /// Adds a bit of the class of each lock, where it isn't there yet.
    // Most stacks are empty where a frame closes, and where a flag goes on.
    #[inline(always)]
    fn add_each(&mut self, stack: &[Held<'_>], bit: Usage, line: u64) -> Result<(), AllocError>
        requires { IsBit bit }
        ensures uses { OnOk result (self.new ≡ fold with_use self.old
            (map (use_at bit line) (map (λ held. held.class) stack.now))) }
        ensures first { take (length self.old) self.new ≡ self.old }
    {
        for held in stack {
            let class = held.class;
            self.add(UsageFact { class, bit, line })?;
        }
        Ok(())
    }

    /// Adds a bit of a class, where it isn't there yet.
    // Each batch begins without bits, so small traces ask for this at most acquisitions.
    #[inline(always)]
    fn add(&mut self, fact: UsageFact) -> Result<(), AllocError>
        requires { IsBit fact.bit }
        ensures added { OnOk result (self.new ≡ with_use self.old fact) }
        ensures refused { OnErr result (self.new ≡ self.old) }
        ensures first { take (length self.old) self.new ≡ self.old }
    {
        extend_to(&mut self.known, fact.class)?;
        let class = fact.class as usize;
        if self.known[class].contains(fact.bit) {
            return Ok(());
        }
        self.facts.push(fact)?;
        self.known[class].insert(fact.bit);
        Ok(())
    }
}

/// Gives the class a set, where it has none yet: it and those below it get empty ones.
fn extend_to(known: &mut Vec<Usage>, class: u32) -> Result<(), AllocError>
    ensures kept { (k : ℕ)
        → slice_index_or known.new.items k no_bits ≡ slice_index_or known.old.items k no_bits }
    ensures reached { OnOk result (class < vec_len known.new) }
{
    let class = class as usize;
    if class < known.len() {
        return Ok(());
    }
    known.resize(class + 1, Usage::empty())
}
