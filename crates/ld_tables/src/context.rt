//! What a task's frames and flags make of an acquisition.
ghost use Rattle.std.specs.Prelude.{◌≡◌, ◌<◌, length, true};
ghost use Rattle.std.specs.List.{list_any};
ghost use Rattle.ld_trace.specs.declared.event.State.{State};
ghost use Rattle.ld_class.specs.Usage.{has_bit};
ghost use Rattle.ld_rules.specs.Flags.{same_state};
ghost use Rattle.ld_rules.specs.Usage.{usage_of};
ghost use Rattle.ld_rules.specs.Usage.Bit.{In, On};
ghost use Rattle.ld_tables.specs.Inner.Interrupts.{IsEntered, IsLeft, IsSet, enabled_now, fresh, is_on};
ghost use Rattle.ld_tables.specs.Inner.Interrupts.{nests_in, start_now, states_of};

use crate::interrupts::{Flag, Interrupts};
use ld_class::Usage;
use ld_trace::State;
use std::marker::Model;

/// The open frames of a task and its flags, and beside them what they make of an acquisition: that is asked for more
/// often than they change.
#[derive(Drop)]
pub struct Context {
    interrupts: Interrupts,
    start: usize,
    in_bits: Usage,
    on_bits: Usage,
}

impl Model for Context {
    ghost use Rattle.ld_tables.specs.declared.interrupts.Interrupts.{Interrupts};
    ghost use Rattle.ld_tables.specs.Inner.Interrupts.{AreShown};

    ghost Value = { Interrupts };

    ghost view = { λ c. c.interrupts };

    ghost invariant = { λ c. AreShown c.interrupts c.start c.in_bits c.on_bits };
}

impl Context {
    /// Outside frames, with both flags on.
    pub fn new() -> Context
        ensures { result ≡ fresh }
    {
        Context::of(Interrupts::new())
    }

    /// That of these frames and flags.
    pub fn of(interrupts: Interrupts) -> Context
        ensures { result ≡ interrupts }
    {
        Context {
            interrupts,
            start: interrupts.start(),
            in_bits: interrupts.in_bits(),
            on_bits: interrupts.on_bits(),
        }
    }

    /// As [`Interrupts::enter`].
    pub fn enter(&mut self, state: State, start: usize)
        requires { nests_in (states_of self.old) state ≡ true }
        ensures { IsEntered state start self.old self.new }
    {
        self.interrupts.enter(state, start);
        self.start = self.interrupts.start();
        self.in_bits = self.interrupts.in_bits();
        self.on_bits = self.interrupts.on_bits();
    }

    /// As [`Interrupts::exit`].
    pub fn exit(&mut self)
        requires { 0 < length (states_of self.old) }
        ensures { IsLeft self.old self.new }
    {
        self.interrupts.exit();
        self.start = self.interrupts.start();
        self.in_bits = self.interrupts.in_bits();
        self.on_bits = self.interrupts.on_bits();
    }

    /// As [`Interrupts::set`].
    pub fn set(&mut self, state: State, flag: Flag)
        ensures { IsSet state (is_on flag) self.old self.new }
    {
        self.interrupts.set(state, flag);
        self.on_bits = self.interrupts.on_bits();
    }

    /// The frames and flags.
    pub fn interrupts(&self) -> Interrupts
        ensures { result ≡ self.now }
    {
        self.interrupts
    }

    /// As [`Interrupts::start`].
    pub fn start(&self) -> usize
        ensures { result ≡ start_now self.now }
    {
        self.start
    }

    /// As [`Interrupts::in_bits`].
    pub fn in_bits(&self) -> Usage
        ensures { (state : State) → has_bit result (usage_of (In state))
            ≡ list_any (same_state state) (states_of self.now) }
    {
        self.in_bits
    }

    /// As [`Interrupts::on_bits`].
    pub fn on_bits(&self) -> Usage
        ensures { (state : State) → has_bit result (usage_of (On state)) ≡ enabled_now state self.now }
    {
        self.on_bits
    }
}
