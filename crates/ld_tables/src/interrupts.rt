//! The open frames of a task, and its flags.
ghost use Rattle.std.specs.Prelude.{◌≡◌, ◌<◌, true, if◌then◌else◌, length, slice_get};
ghost use Rattle.std.specs.List.{list_any};
ghost use Rattle.ld_trace.specs.declared.event.State.{State};
ghost use Rattle.ld_class.specs.Usage.{has_bit};
ghost use Rattle.ld_rules.specs.Flags.{same_state};
ghost use Rattle.ld_rules.specs.Usage.{usage_of};
ghost use Rattle.ld_rules.specs.Usage.Bit.{In, On};
ghost use Rattle.ld_rules.specs.Open.{is_some_and};
ghost use Rattle.ld_tables.specs.Inner.Interrupts.{IsEntered, IsLeft, IsSet, enabled_now, flag_now, fresh};
ghost use Rattle.ld_tables.specs.Inner.Interrupts.{flag_of, is_on, nests_in, start_now, states_of};

use bitflags::Flags as _;
use ld_class::Usage;
use ld_trace::State;

/// What a flag is set to.
#[derive(Clone, Copy)]
pub enum Flag {
    On,
    Off,
}

impl Flag {
    /// On where this is true.
    pub fn of(on: bool) -> Flag
        ensures { is_on result ≡ on }
    {
        if on { Flag::On } else { Flag::Off }
    }

    fn is_on(self) -> bool
        ensures { result ≡ is_on self }
    {
        match self {
            Flag::On => true,
            Flag::Off => false,
        }
    }
}

/// The flags of a task. Softirqs come in only where both are on.
#[derive(Clone, Copy)]
pub struct Flags {
    pub hard: bool,
    pub soft: bool,
}

/// An open frame of a task.
#[derive(Clone, Copy)]
pub struct OpenFrame {
    /// How many locks the task held at the enter. Those of the frame come after them.
    pub start: usize,
    /// The task's flags in the frame.
    pub flags: Flags,
}

/// The open frames of a task, and its flags in each and outside frames. A hard frame may lie over a
/// soft one, and no other frame over another.
#[derive(Clone, Copy)]
pub struct Interrupts {
    /// The flags outside frames.
    pub outside: Flags,
    /// The soft frame, where one is open.
    pub soft: Option<OpenFrame>,
    /// The hard frame, where one is open: over the soft one, where that is open too.
    pub hard: Option<OpenFrame>,
}

impl Interrupts {
    /// Outside frames, with both flags on.
    pub fn new() -> Interrupts
        ensures { result ≡ fresh }
    {
        let outside = Flags {
            hard: true,
            soft: true,
        };
        Interrupts {
            outside,
            soft: None,
            hard: None,
        }
    }

    /// Whether the innermost frame is one of the state.
    pub fn is_innermost(&self, state: State) -> bool
        ensures { result ≡ is_some_and (same_state state) (slice_get (states_of self.now) 0) }
    {
        match state {
            State::Hard => self.hard.is_some(),
            State::Soft => self.hard.is_none() && self.soft.is_some(),
        }
    }

    /// Whether a frame of the state is open.
    pub fn has(&self, state: State) -> bool
        ensures { result ≡ list_any (same_state state) (states_of self.now) }
    {
        match state {
            State::Hard => self.hard.is_some(),
            State::Soft => self.soft.is_some(),
        }
    }

    /// Whether a frame of the state may open here: a hard one in no hard frame, a soft one in none.
    pub fn nests(&self, state: State) -> bool
        ensures { result ≡ nests_in (states_of self.now) state }
    {
        match state {
            State::Hard => self.hard.is_none(),
            State::Soft => self.hard.is_none() && self.soft.is_none(),
        }
    }

    /// Where the locks of the innermost frame begin in the task's stack.
    pub fn start(&self) -> usize
        ensures { result ≡ start_now self.now }
    {
        match (self.hard, self.soft) {
            (Some(frame), _) | (None, Some(frame)) => frame.start,
            (None, None) => 0,
        }
    }

    /// Whether interrupts of the state are enabled. Those of softirqs are where both flags are on.
    pub fn is_enabled(&self, state: State) -> bool
        ensures { result ≡ enabled_now state self.now }
    {
        let flags = self.flags();
        match state {
            State::Hard => flags.hard,
            State::Soft => flags.hard && flags.soft,
        }
    }

    /// The flags in the innermost frame.
    fn flags(&self) -> Flags
        ensures hard { result.hard ≡ flag_now State.Hard self.now }
        ensures soft { result.soft ≡ flag_now State.Soft self.now }
    {
        match (self.hard, self.soft) {
            (Some(frame), _) | (None, Some(frame)) => frame.flags,
            (None, None) => self.outside,
        }
    }

    /// The IN bits of a class that is waited for here: those of the states of which a frame is open.
    pub fn in_bits(&self) -> Usage
        ensures { (state : State) → has_bit result (usage_of (In state))
            ≡ list_any (same_state state) (states_of self.now) }
    {
        match (self.hard.is_some(), self.soft.is_some()) {
            (false, false) => Usage::empty(),
            (true, false) => Usage::IN_HARD,
            (false, true) => Usage::IN_SOFT,
            (true, true) => Usage::IN_HARD | Usage::IN_SOFT,
        }
    }

    /// The ON bits of a class that is held here: those of the states whose interrupts are enabled.
    pub fn on_bits(&self) -> Usage
        ensures { (state : State) → has_bit result (usage_of (On state)) ≡ enabled_now state self.now }
    {
        let flags = self.flags();
        match (flags.hard, flags.soft) {
            (false, _) => Usage::empty(),
            (true, false) => Usage::ON_HARD,
            (true, true) => Usage::ON_HARD | Usage::ON_SOFT,
        }
    }

    /// A frame opens, whose locks begin here. The flag of its own state is off in it; the other is
    /// as before.
    pub fn enter(&mut self, state: State, start: usize)
        requires { nests_in (states_of self.old) state ≡ true }
        ensures { IsEntered state start self.old self.new }
    {
        let flags = self.flags();
        match state {
            State::Hard => {
                let flags = Flags {
                    hard: false,
                    ..flags
                };
                self.hard = Some(OpenFrame { start, flags });
            }
            State::Soft => {
                let flags = Flags {
                    soft: false,
                    ..flags
                };
                self.soft = Some(OpenFrame { start, flags });
            }
        }
    }

    /// The innermost frame closes; the flags are again those of the frame around it.
    pub fn exit(&mut self)
        requires { 0 < length (states_of self.old) }
        ensures { IsLeft self.old self.new }
    {
        if self.hard.is_some() {
            self.hard = None;
        } else {
            self.soft = None;
        }
    }

    /// The flag for the state goes on or off in the innermost frame.
    pub fn set(&mut self, state: State, flag: Flag)
        ensures { IsSet state (is_on flag) self.old self.new }
    {
        if let Some(frame) = &mut self.hard {
            set_flag(&mut frame.flags, state, flag);
        } else if let Some(frame) = &mut self.soft {
            set_flag(&mut frame.flags, state, flag);
        } else {
            set_flag(&mut self.outside, state, flag);
        }
    }
}

/// The flag for the state goes on or off among these.
fn set_flag(flags: &mut Flags, state: State, flag: Flag)
    ensures { (of : State) → flag_of of flags.new
        ≡ (if same_state of state then is_on flag else flag_of of flags.old) }
{
    match state {
        State::Hard => flags.hard = flag.is_on(),
        State::Soft => flags.soft = flag.is_on(),
    }
}
