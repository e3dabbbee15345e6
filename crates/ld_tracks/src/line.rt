//! What lines of a trace say of a task.
ghost use Rattle.std.specs.Prelude.{◌≡◌};
ghost use Rattle.ld_rules.specs.Flags.{flag_for};
ghost use Rattle.ld_tracks.specs.Format.{with_flag};

use ld_trace::State;

/// A lock, as lines name it.
#[derive(Clone, Copy, Debug, PartialEq, Eq)]
pub struct Lock {
    /// The number of its class's name.
    pub name: u32,
    /// Its address in the kernel.
    pub address: u64,
}

/// A lock that the stream has a task hold.
#[derive(Clone, Copy, Debug, PartialEq, Eq)]
pub struct Held {
    pub lock: Lock,
    /// How many frames the task had where it acquired it: 1 outside handlers.
    pub depth: u8,
}

/// The flags of a task: whether interrupts of each state are enabled.
#[derive(Clone, Copy, Debug, PartialEq, Eq)]
pub struct Flags {
    pub hard: bool,
    pub soft: bool,
}

impl Flags {
    /// The flag of this state.
    pub fn of(self, state: State) -> bool
        ensures { result ≡ flag_for state self.hard self.soft }
    {
        match state {
            State::Hard => self.hard,
            State::Soft => self.soft,
        }
    }

    /// These, with that of the state set.
    pub fn with(self, state: State, on: bool) -> Flags
        ensures { result ≡ with_flag state on self }
    {
        match state {
            State::Hard => Flags {
                hard: on,
                soft: self.soft,
            },
            State::Soft => Flags {
                hard: self.hard,
                soft: on,
            },
        }
    }
}

/// How a lock is acquired.
#[derive(Clone, Copy, Debug, PartialEq, Eq)]
pub enum How {
    /// The task may wait for it: `acquire`.
    Waiting,
    /// The same, as one of this subclass of its class: `nested`.
    Nested(u8),
    /// By a trylock that succeeded: `try`.
    Trying,
}

/// What a line says of its task.
#[derive(Clone, Copy, Debug, PartialEq, Eq)]
pub enum Line {
    /// It starts with these flags outside handlers.
    Begin(Flags),
    /// It acquires the lock.
    Acquire(How, Lock),
    /// It releases the lock.
    Release(Lock),
    /// An interrupt handler begins over it.
    Enter(State),
    /// That handler ends.
    Exit(State),
    /// Its flag of the state goes on.
    Enable(State),
    /// Its flag of the state goes off.
    Disable(State),
}
