//! Which handlers run over a task, and which interrupts are enabled there.
ghost use Rattle.std.specs.Prelude.{◌≡◌, ◌+◌, ◌∷◌, true, length};
ghost use Rattle.ld_rules.specs.Flags.{flag_for};
ghost use Rattle.ld_tracks.specs.Format.{handler, with_flag};
ghost use Rattle.ld_tracks.specs.Place.{IsLeft, has_effect, inner_of, outer_of};

use crate::line::Flags;
use ld_trace::State;

/// The handlers that run over a task.
#[derive(Clone, Copy, Debug, PartialEq, Eq)]
pub enum Handlers {
    /// None.
    Outside,
    /// That of a softirq.
    Soft,
    /// That of a hardware interrupt.
    Hard,
    /// That of a hardware interrupt, over that of a softirq.
    HardOverSoft,
}

/// Where a task runs.
#[derive(Clone, Copy, Debug, PartialEq, Eq)]
pub struct Place {
    pub handlers: Handlers,
    /// The flags outside handlers.
    pub outside: Flags,
    /// In the handler of a softirq: whether hardware interrupts are enabled. Softirqs are disabled there.
    pub in_soft: bool,
}

impl Place {
    /// Outside handlers, with both flags on.
    pub fn new() -> Place
        ensures { result ≡ record {
          handlers = Handlers.Outside;
          outside = record { hard = true; soft = true };
          in_soft = true;
        } }
    {
        Place {
            handlers: Handlers::Outside,
            outside: Flags {
                hard: true,
                soft: true,
            },
            in_soft: true,
        }
    }

    /// How many frames there are: the handlers, and one more for what runs outside them.
    pub fn depth(self) -> u8
        ensures { result ≡ length (outer_of self) + 1 }
    {
        match self.handlers {
            Handlers::Outside => 1,
            Handlers::Soft | Handlers::Hard => 2,
            Handlers::HardOverSoft => 3,
        }
    }

    /// What the innermost handler is of, if one runs.
    pub fn innermost(self) -> Option<State>
        ensures { result ≡ (inner_of self).state }
    {
        match self.handlers {
            Handlers::Outside => None,
            Handlers::Soft => Some(State::Soft),
            Handlers::Hard | Handlers::HardOverSoft => Some(State::Hard),
        }
    }

    /// The flags in the innermost handler; outside handlers, those there.
    pub fn flags(self) -> Flags
        ensures { result ≡ (inner_of self).flags }
    {
        match self.handlers {
            Handlers::Outside => self.outside,
            Handlers::Soft => Flags {
                hard: self.in_soft,
                soft: false,
            },
            Handlers::Hard => Flags {
                hard: false,
                soft: self.outside.soft,
            },
            Handlers::HardOverSoft => Flags {
                hard: false,
                soft: false,
            },
        }
    }

    /// Whether the state's flag has an effect: none has in a hardware interrupt's handler, and in a softirq's
    /// handler softirqs stay disabled. There alone a handler of the state may begin.
    pub fn has_effect(self, state: State) -> bool
        ensures { result ≡ has_effect state (inner_of self) }
    {
        match (self.handlers, state) {
            (Handlers::Outside, _) | (Handlers::Soft, State::Hard) => true,
            (Handlers::Soft, State::Soft) | (Handlers::Hard | Handlers::HardOverSoft, _) => false,
        }
    }

    /// The same, with the state's flag set, which has an effect.
    pub fn with(self, state: State, on: bool) -> Place
        requires { has_effect state (inner_of self) ≡ true }
        ensures inner { inner_of result ≡ record (inner_of self) {
          flags = with_flag state on (inner_of self).flags;
        } }
        ensures outer { outer_of result ≡ outer_of self }
    {
        match self.handlers {
            Handlers::Outside => Place {
                outside: self.outside.with(state, on),
                ..self
            },
            Handlers::Soft | Handlers::Hard | Handlers::HardOverSoft => Place {
                in_soft: on,
                ..self
            },
        }
    }

    /// The same, in a handler of the state.
    pub fn entered(self, state: State) -> Place
        requires { has_effect state (inner_of self) ≡ true }
        ensures inner { inner_of result ≡ handler state (inner_of self) }
        ensures outer { outer_of result ≡ inner_of self ∷ outer_of self }
    {
        match (self.handlers, state) {
            (Handlers::Outside, State::Soft) => Place {
                handlers: Handlers::Soft,
                in_soft: self.outside.hard,
                ..self
            },
            (Handlers::Outside, State::Hard) => Place {
                handlers: Handlers::Hard,
                ..self
            },
            _ => Place {
                handlers: Handlers::HardOverSoft,
                ..self
            },
        }
    }

    /// The same, behind the end of the innermost handler. Outside handlers it stays.
    pub fn left(self) -> Place
        ensures { IsLeft (outer_of self) self result }
    {
        let handlers = match self.handlers {
            Handlers::Outside | Handlers::Soft | Handlers::Hard => Handlers::Outside,
            Handlers::HardOverSoft => Handlers::Soft,
        };
        Place { handlers, ..self }
    }
}
